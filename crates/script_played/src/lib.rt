//! Whether the run that a report tells of played a script, what follows from it, and how long its
//! histories get at most.
#![tactic(auto)]

mod laws;
mod room;

pub use laws::{histories_fit, owed_as_written};
pub use room::{moves_in, steps_ahead};
