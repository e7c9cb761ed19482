//! Whether the run that a report tells of played a script.
#![tactic(auto)]

mod script_judge;

pub use script_judge::plays;
