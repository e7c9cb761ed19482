//! A script that is played on a disk in memory, and the test that uses up the ids of a session,
//! which is too long for a case.
#![tactic(auto)]

mod begun;
mod run;

pub use run::{Run, run_text};

#[cfg(test)]
mod tests;
