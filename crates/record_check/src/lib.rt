//! The plain judge of a session's records: whether they were taken in order, carried out and
//! answered. It is slow, takes memory as it likes, and shares nothing with the server.
#![tactic(auto)]

mod answered;
mod answers;
mod carried;
mod carrying;
mod counts;
mod groups;
mod log;
mod session;
mod steps;
mod taking;
mod verdicts;

pub use answers::{answer_to, answers_due, row};
pub use counts::times;
pub use groups::{owed_count, owing_record_of};
pub use log::{answers_received, request, requests_sent, sent_count};
pub use session::{is_answered, is_carried_out, is_taken_in_order};
pub use steps::{push_if, record_steps, session_steps};
pub use verdicts::{closing_record, pages_in, verdicts_of};
