//! The worked example and the test of `host_frames`: how the layers above use a pool.
//!
//! - `Buffer` has pages of one pool, at least one, as an attached buffer does. It writes a whole
//!   page by `page_mut`.
//! - `Worker` holds a seat, as a hand does, and a mark that it writes into the pages that it
//!   claims.
//!
//! The test runs four workers at one pool to their end.

mod buffer;
mod crew;
mod worker;

pub use buffer::Buffer;
pub use crew::{Done, Job, work_together};
pub use worker::Worker;

#[cfg(test)]
mod tests;
