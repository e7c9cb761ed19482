//! The tests of disks and of what stands on them: objects in memory, files, the cache and the
//! device.
#![tactic(auto)]

pub mod cache;
pub mod device;
pub mod file;
pub mod objects;
