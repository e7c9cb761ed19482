//! The worked example and the test of `host_group`: how the layers above use group cells.
//!
//! - `Desk` is a state that keeps the admitting seat of its cells, as an intake does. It takes
//!   members, and lands them with what their settling told.
//! - `Waiting` is a member that waits, with the right to settle it.
//! - `Round` is one instance whose members are settled by hands in threads of their own, and then
//!   by the plain cells.
//!
//! The tests run threads at the cells to their end.

mod crew;
mod desk;
mod plain_round;
mod task;

pub use crew::{Done, run_rounds};
pub use desk::{Desk, Waiting};
pub use task::{Outcomes, Round};

#[cfg(test)]
mod tests;
