//! What a finished server gathered is a lawful report, and a run over the workers is lawful, by
//! what is known before and after its sessions.
#![tactic(auto)]

mod laws;
mod report_laws;

pub use laws::{flushed_writes_survive_kills, played_runs_are_laid_out, played_runs_are_sound};
pub use report_laws::{
    gathered_reports_are_lawful, gathered_runs_are_lawful, gathered_sessions_are_lawful,
};
