//! One session's intake on one thread: records are sent, taken, settled, answered and landed by
//! hand.
#![tactic(auto)]

mod acts;
mod answer;
mod bench;
mod calls;
mod flight;
mod landing;
mod opening;
mod requests;
mod step;
mod taken;
mod taking;
#[cfg(test)]
mod tests;

pub use acts::{Act, PART, play, play_anew};
pub use bench::Bench;
pub use flight::Flight;
pub use landing::{land, land_flight, land_waiting};
pub use requests::{close, flush, last, member, read, request, trim};
pub use step::Step;
pub use taken::Taken;
pub use taking::take;
