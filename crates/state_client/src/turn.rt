//! The worked example and the test of `host_turn`: how the layers above use a book.
//!
//! - `Diary` is a state with a history. Its `write` tells, beside its exact clause, that it adds
//!   entries of one maker, which is what `leave` asks.
//! - `Writer` is a type that holds a seat, as a hand does, and keeps that the seat is outside and
//!   whose it is.
//! - `Shelf` holds many books and a seat at each. It enters the k-th, and keeps that the k-th seat
//!   is of the k-th book.
//! - `Desk` is a state that holds a seat at another book, which its fixed part names.
//!
//! The tests run threads at one book to their end.

mod crew;
mod desk;
mod diary;
mod shelf;
#[cfg(test)]
mod tests;
mod writer;

pub use crew::write_together;
pub use desk::{Call, Desk, DeskFixed, call_at};
pub use diary::{Diary, Note};
pub use shelf::Shelf;
pub use writer::Writer;
