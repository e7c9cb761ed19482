//! A log that grows at its end: one that keeps its entries, and one whose entries only clauses see.
#![tactic(auto)]

mod ghost_log;
mod ghosts;
mod kept_log;
mod listing;
mod log;
mod note;
mod switch_log;
mod told;

pub use ghost_log::GhostLog;
pub use listing::Listing;
pub use log::Log;
pub use note::Note;
pub use switch_log::SwitchLog;
pub use told::Told;
