//! What was done to the device.

use crate::shared_bytes::SharedBytes;
use host_block::{Op, ReservedList};

/// A step as the device made it: of a transfer or trim one block, or a whole flush.
#[derive(Drop)]
pub struct Step {
    pub hand: u32,
    /// The session, counted from 1; 0 for the flush that closes a run.
    pub session: u32,
    /// The record of the session, counted from 0.
    pub index: u32,
    /// The step of the record, counted from 0.
    pub k: u32,
    pub op: Op,
    /// The block of the image; 0 for a flush.
    pub block: u64,
    /// The block's bytes; none for a trim, a flush and a read that faulted.
    pub bytes: SharedBytes,
    pub faulted: bool,
}

/// The history of the device.
pub type Steps = ReservedList<Step>;
