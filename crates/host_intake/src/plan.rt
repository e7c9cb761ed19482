use host_block::{BlockSize, Range};
use host_group::CellsName;
use host_turn::BookName;

/// The fixed part of an intake: what it was made with. No value of it is made.
pub struct IntakePlan {
    /// The partition, in blocks of the device.
    pub part: Range,
    pub size: BlockSize,
    /// For how many records everything is reserved.
    pub room: u32,
    /// Whether the rows of its records are kept.
    pub keeps: bool,
    /// The number of its seat at the memory's book.
    pub admissions: u64,
    /// Which request ring, which memory's book and which cells it is of.
    pub ring: BookName,
    pub memory: BookName,
    pub cells: CellsName,
}
