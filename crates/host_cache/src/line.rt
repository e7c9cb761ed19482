// What a cache holds of a block.
use host_block::Bytes;

/// How many blocks the list of a cache has at most.
pub const ENTRIES: usize = 32;

/// A block in the list.
#[derive(Drop)]
pub struct Line {
    pub bytes: Bytes,
    /// Whether the disk doesn't have these bytes yet.
    pub dirty: bool,
}

/// A block that is out of the list, and that the disk still has to get.
#[derive(Drop)]
pub struct Victim {
    pub block: u64,
    pub bytes: Bytes,
}
