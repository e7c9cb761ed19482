//! What a client did and saw.

use host_block::{Bytes, ReservedList};

/// Why no buffer was attached.
#[derive(Clone, Copy, Debug, PartialEq, Eq)]
pub enum AttachError {
    /// The pool had too few frames.
    NoFrames,
    /// The session has given 65,535 ids.
    NoIds,
    /// The session was ended or aborted.
    Closed,
    /// Want of memory.
    Oom,
}

/// One call of a client, with what it was given and what it answered.
#[derive(Drop)]
pub enum Event {
    Attached {
        pages: u32,
        id: u16,
    },
    NotAttached {
        pages: u32,
        cause: AttachError,
    },
    Filled {
        id: u16,
        block: u32,
        count: u32,
        byte: u8,
        done: bool,
    },
    /// The record of that index in its 32 bytes.
    Sent {
        index: u32,
        bytes: [u8; 32],
    },
    Received {
        bytes: [u8; 32],
    },
    /// The bytes of `count` blocks where `done` is true, else none.
    Shown {
        id: u16,
        block: u32,
        count: u32,
        done: bool,
        bytes: Bytes,
    },
    Drained,
    Aborted,
}

/// A client's log, in order.
pub type Events = ReservedList<Event>;
