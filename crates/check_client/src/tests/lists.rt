//! The lists of a session, as rows of numbers.

use host_block::Op;
use host_model::{TakenRow, Verdict};
use host_record::{Finish, Status};

/// One call of a client.
#[derive(Clone, Copy)]
pub enum Call {
    /// The pages and the id.
    Attach(u32, u16),
    /// The id, the first block, the number of blocks and the byte; true where it was done.
    Fill(u16, u32, u32, u8, bool),
    /// The index, the command, the reqid, the group, the id, the length, and the offsets in the
    /// buffer and in the partition.
    Send(u32, u32, u32, u16, u16, u32, u64, u64),
    /// The status, the reqid, the group and the count.
    Answer(Status, u32, u16, u32),
    /// The id, the first block, and the byte of each block.
    Show(u16, u32, &'static [u8]),
    Drain,
    Abort,
}

/// One thing that was done to a buffer.
#[derive(Clone, Copy)]
pub enum Entry {
    /// The id, the pages and the records sent before.
    Attach(u16, u32, u32),
    /// The id, the first block, the number of blocks and the byte.
    Fill(u16, u32, u32, u8),
    /// The id, the first block and the number of blocks.
    Show(u16, u32, u32),
    /// The index and the id.
    Pin(u32, u16),
    /// The index, the step, the id, the block and its byte.
    Lift(u32, u32, u16, u32, u8),
    /// The same.
    Land(u32, u32, u16, u32, u8),
    /// The index and the id.
    Done(u32, u16),
    /// The id.
    Release(u16),
}

/// A step: the index, the step of the record, the operation, the block and its byte, and whether it
/// faulted.
#[derive(Clone, Copy)]
pub struct Act(
    pub u32,
    pub u32,
    pub Op,
    pub u64,
    pub &'static [u8],
    pub bool,
);

/// A session on the first partition.
#[derive(Clone, Copy)]
pub struct Lists {
    pub number: u32,
    pub log: &'static [Call],
    pub rows: &'static [TakenRow],
    pub entries: &'static [Entry],
    pub acts: &'static [Act],
    pub finish: Finish,
}

pub const DONE: TakenRow = TakenRow {
    verdict: Verdict::Accepted,
    outcome: Status::Ok,
};

/// A record that was accepted and faulted.
pub const FAULTED: TakenRow = TakenRow {
    verdict: Verdict::Accepted,
    outcome: Status::Io,
};

/// A record outside the partition.
pub const OUTSIDE: TakenRow = TakenRow {
    verdict: Verdict::Refused(Status::OutOfRange),
    outcome: Status::OutOfRange,
};

/// A record whose buffer isn't attached.
pub const NO_BUFFER: TakenRow = TakenRow {
    verdict: Verdict::Refused(Status::NotFound),
    outcome: Status::NotFound,
};
