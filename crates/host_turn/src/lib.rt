//! A ticket lock that hands its state round by value and knows its history, a list that only grows,
//! in which every entry names its maker.
#![tactic(auto)]

mod book;
mod book_name;
mod rule;
mod seat;
mod steps;
mod story;
mod view;

pub use book::{Book, NoBook};
pub use book_name::BookName;
pub use seat::BookSeat;
pub use story::Story;
