//! What a memory is made with, for good.
ghost use Rattle.std.specs.Prelude.{◌≡◌, ◌+◌, ◌*◌, IfSome};

use host_block::BlockSize;
use host_frames::PoolName;

/// The numbers that a memory was made with.
#[derive(Clone, Copy)]
pub struct MemoryLimits {
    /// The bytes of a page.
    pub size: BlockSize,
    /// How many buffers may be given.
    pub ids: u32,
    /// The client's entries: three for each attach, one for each fill and each show.
    pub room: u64,
    /// How many records may pin a buffer.
    pub records: u32,
    /// How many lifts and landings there is room for at the start.
    pub moves: u64,
    /// How many hands there are. The client's number is this one, the admissions' one more.
    pub hands: u32,
    /// Whether the history is kept in memory.
    pub keeps: bool,
}

impl MemoryLimits {
    // How many entries there has to be room for at the start, where that is a number of 64 bits.
    pub(crate) fn entry_count(&self) -> Option<u64>
        ensures { IfSome result (λ n. n ≡ self.now.room + 2 * self.now.records + self.now.moves) }
    {
        let records = 2 * self.records as u64;
        self.room.checked_add(records)?.checked_add(self.moves)
    }
}

/// The fixed part of a memory: what it was made with, and which pool its pages are of. No value of
/// it is made.
pub struct MemoryPlan {
    pub limits: MemoryLimits,
    pub pool: PoolName,
}
