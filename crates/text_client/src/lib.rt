//! The tests of what reads and writes bytes: tables, texts and records, and the words of a call.
#![tactic(auto)]

pub mod table;
pub mod texts;
pub mod words;
