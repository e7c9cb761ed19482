//! How the layers above use what threads share: a book, a pool, rings and group cells, each with a
//! worked example and tests that run threads to their end.
#![tactic(auto)]

pub mod frames;
pub mod group;
pub mod rings;
pub mod turn;
