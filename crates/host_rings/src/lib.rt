//! The two bounded rings of a session: requests go from one sender to one taker, answers from
//! several senders to one taker.
#![tactic(auto)]

mod answer_rule;
mod answer_steps;
mod answer_view;
mod answers;
mod envelope;
mod full;
mod note;
mod request_rule;
mod request_steps;
mod request_view;
mod requests;
mod sender;
mod slip;
mod slip_sender;
mod slip_taker;
mod taker;

pub use answers::{answer_ring, close_answers};
pub use envelope::Envelope;
pub use full::Full;
pub use note::Note;
pub use requests::{close_requests, request_ring};
pub use sender::Sender;
pub use slip::Slip;
pub use slip_sender::SlipSender;
pub use slip_taker::SlipTaker;
pub use taker::Taker;
