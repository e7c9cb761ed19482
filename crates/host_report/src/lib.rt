//! What a run reports: its sessions, its steps and how it was closed; what makes a report lawful;
//! and its text.
#![tactic(auto)]

mod closing;
mod laws;
mod report;
mod session;
mod text;

pub use closing::Closing;
pub use laws::ranges_lie_in_image;
pub use report::Report;
pub use session::{SessionReport, SessionReports};
pub use text::{write_report, write_summary};
