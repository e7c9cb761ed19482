//! The tests of `host_memory`: a player of calls, held against a plain model.
#![tactic(auto)]

mod done;
mod plain;
mod player;
mod random_calls;

pub use random_calls::{Tally, play};

#[cfg(test)]
mod tests;
