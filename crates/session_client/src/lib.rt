//! The tests of `host_session`: both ends of a session, with hands that carry nothing out.
//!
//! - `take`, `land` and `hand_on` are the steps of a hand, `go_round` one round of them.
//! - `Caller` is a client with its seat at the pool, `Desk` a session on one thread.
//! - `run_pair` plays a session with its client in one thread and its hand in another. The hand
//!   ends each record as the plain judge says (`Judge`, `PlainList`).
#![tactic(auto)]

mod caller;
mod deed;
mod desk;
mod handing;
mod judge;
mod landing;
mod opening;
mod pair;
mod plain;
mod playing;
mod round;
mod settling;
mod taking;
mod task;

pub use caller::Caller;
pub use deed::Deed;
pub use desk::Desk;
pub use handing::hand_on;
pub use judge::Judge;
pub use landing::land;
pub use opening::{Left, PART, Sizes, close_desk, open_desk};
pub use pair::run_pair;
pub use plain::{PlainList, end_under};
pub use playing::play;
pub use round::{Visit, go_round};
pub use settling::settled;
pub use taking::take;
pub use task::{Taken, Task};

#[cfg(test)]
mod tests;
