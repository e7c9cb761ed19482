//! The tests of `host_device`.
//!
//! - `step_at` makes a step under the turn of a book; `Hand` is a type that holds a seat at a
//!   device. Two hands work at one device to their end.
//! - `play` makes random steps, held against a plain array; `may_leave` judges crash images along a
//!   history of 5,000 steps by the history alone.

#[cfg(test)]
mod tests;
