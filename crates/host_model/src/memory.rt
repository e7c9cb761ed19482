//! What was done to a session's buffers.

use crate::shared_bytes::SharedBytes;
use host_block::ReservedList;

/// One thing that was done to a buffer. Blocks of a buffer are its pages, counted from 0.
#[derive(Drop)]
pub enum MemEvent {
    /// The client attached a buffer after it had sent `from` records.
    Attach {
        id: u16,
        pages: u32,
        from: u32,
    },
    Fill {
        id: u16,
        block: u32,
        count: u32,
        byte: u8,
    },
    Show {
        id: u16,
        block: u32,
        count: u32,
    },
    /// The record of that index holds the buffer until its `Done`; the hand `by` carries it out.
    Pin {
        index: u32,
        id: u16,
        by: u32,
    },
    /// A page was copied out for step `k` of a write.
    Lift {
        index: u32,
        k: u32,
        id: u16,
        block: u32,
        bytes: SharedBytes,
    },
    /// What step `k` of a read gave was copied in.
    Land {
        index: u32,
        k: u32,
        id: u16,
        block: u32,
        bytes: SharedBytes,
    },
    Done {
        index: u32,
        id: u16,
    },
    Close {
        index: u32,
        id: u16,
    },
    /// The buffer's pages left for the pool.
    Release {
        id: u16,
    },
}

/// What was done, and by whom.
#[derive(Drop)]
pub struct MemEntry {
    pub hand: u32,
    pub what: MemEvent,
}

/// The history of a session's buffers.
pub type MemEntries = ReservedList<MemEntry>;
