//! The words of a call of the program, and the command that they name.
#![tactic(auto)]

mod command;
mod given;
mod meaning;
mod number;
mod reader;
mod short;
mod syntax;
mod words_error;

pub use command::Command;
pub use reader::read_words;
pub use words_error::WordsError;
