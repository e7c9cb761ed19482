//! The plain data of a run, and the definitions of what is lawful over it.
#![tactic(auto)]

mod event;
mod laws;
mod memory;
mod row;
mod shared_bytes;
mod step;
mod verdict;

pub use event::{AttachError, Event, Events};
pub use laws::{answers_come_once, first_check_decides, order_is_kept, steps_stay_inside};
pub use memory::{MemEntries, MemEntry, MemEvent};
pub use row::{TakenRow, TakenRows};
pub use shared_bytes::SharedBytes;
pub use step::{Step, Steps};
pub use verdict::Verdict;
