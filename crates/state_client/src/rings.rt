//! The worked example of `host_rings`: how the layers above use the ends of its rings.
//!
//! - `Desk` is a state that holds a taker, and keeps a row for each record taken. Its `next` passes
//!   on when there is none.
//! - `send_one` pushes until there is room.
//! - `Hand` is what a thread holds, with its sender among it. `hand_out` makes them, and
//!   `close_hands` closes the ring of all hands.
//!
//! The tests run the rings between threads to their end.

mod closing;
mod desk;
mod hand;
mod row;
mod sending;

pub use closing::close_hands;
pub use desk::Desk;
pub use hand::{Hand, hand_out};
pub use row::Row;
pub use sending::send_one;

#[cfg(test)]
mod tests;
