//! A write-back cache of a few blocks over a disk.
#![tactic(auto)]

mod cache;
mod disk_calls;
mod error;
mod laws;
mod line;
mod list;
mod steps;

pub use cache::{Cache, NoCache};
pub use error::CacheError;
pub use laws::{flush_is_kept, flush_survives, read_survives, write_survives};
pub use line::{ENTRIES, Line, Victim};
