//! What a seat knows. No value of these types is made.
use host_record::Status;
use std::collections::LinkedList;

pub enum Stage {
    /// The admitting seat, at rest.
    Resting,
    /// It found the number of its next member without a closed instance.
    Looked,
    /// It put the closing member's name into the closing word.
    Placed,
    /// It added the member, and still has the right to settle it.
    Added,
    /// The right to settle a member.
    Right,
    /// Joined to another seat.
    Spent,
}

pub enum Progress {
    Unsettled,
    /// It was the last of a closed instance, and ends it.
    Last,
    TookError,
    TookDeviceFront,
    TookMemoryFront,
    TookClosing,
    Ended,
    /// It settled, and wasn't the last.
    Passed,
}

pub struct Member {
    pub number: u64,
    /// How many closing members of the number came before.
    pub instance: u64,
    pub index: u32,
    pub reqid: u32,
    /// Whether it closes its instance.
    pub last: bool,
}

/// A member, and how far it is settled.
pub struct Row {
    pub member: Member,
    pub progress: Progress,
    /// How it ended; `Ok` before that.
    pub status: Status,
    pub device_front: u64,
    pub memory_front: u64,
    /// What its subtraction found in the word left.
    pub found: u64,
    /// What it took out of the other words, where it ended its instance.
    pub end_error: u64,
    pub end_device_front: u64,
    pub end_memory_front: u64,
    pub end_closing: u64,
}

pub struct View {
    pub stage: Stage,
    /// The member that is admitted, or that the right is for.
    pub row: Row,
    /// All members that were admitted, in order.
    pub admitted: LinkedList<Member>,
    /// Those whose rights came back, the last first.
    pub back: LinkedList<Row>,
    /// Above each index that was admitted.
    pub next: u64,
    /// How many looks found a closed instance.
    pub refusals: u64,
}
