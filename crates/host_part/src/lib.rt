//! The partitions of a table that are served, as ranges of blocks.
#![tactic(auto)]

mod laws;
mod part_error;
mod parts;

pub use laws::{one_range, range_lies_inside, ranges_share_no_block};
pub use part_error::PartError;
pub use parts::{Parts, serve};
