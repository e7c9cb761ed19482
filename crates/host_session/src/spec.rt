use host_block::{BlockSize, Range};

/// What a session is opened with.
#[derive(Clone, Copy)]
pub struct SessionSpec {
    /// Its number, from 1, and the number of its partition.
    pub number: u32,
    pub part_number: u32,
    /// The partition, in blocks of the device.
    pub part: Range,
    pub size: BlockSize,
    /// How many elements fit into each ring.
    pub depth: u32,
    /// How many records may be sent, and how many buffers given.
    pub records: u32,
    pub attaches: u32,
    /// How many events fit into the client's log, beside the one that ends it.
    pub events: u64,
    /// How many lifts and landings there is room for at the start.
    pub memory_room: u64,
    /// Whether its histories are kept in memory.
    pub keeps: bool,
}
