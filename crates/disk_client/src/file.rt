//! The tests of `host_file`: a disk over a raw file whose calls fail as listed, and real files,
//! pipes and refusals.

mod calls;
mod listed_file;

pub use calls::{Answers, call_round};
pub use listed_file::{Call, ListedFile};

#[cfg(test)]
mod tests;
