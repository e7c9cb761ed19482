//! The intake of one session: records are popped, judged and taken in order, and end with an answer
//! that is handed on or kept.
#![tactic(auto)]

mod admission;
mod admit;
mod entry;
mod intake;
mod judge;
mod land;
mod laws;
mod ledger;
mod parts;
mod plan;
mod rows;
mod turns;
mod waiting;

pub use admission::Admission;
pub use entry::{IntakeEntry, Phase, RecordEnd};
pub use intake::Intake;
pub use laws::{ends_are_answers, own_records_fly, verdicts_are_defined};
pub use parts::IntakeParts;
pub use plan::IntakePlan;
pub use waiting::Waiting;
