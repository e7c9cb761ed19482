//! The attached buffers of one session, with pages of the pool, and the history of what was done to
//! them.
#![tactic(auto)]

mod buffer;
mod client;
mod limits;
mod memory;
mod record;
mod teardown;

pub use limits::{MemoryLimits, MemoryPlan};
pub use memory::Memory;
