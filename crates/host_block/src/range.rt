// A run of blocks.
ghost use Rattle.std.specs.Prelude.{◌↔◌, IsTrue};
ghost use Rattle.host_block.specs.Range.{IsWithin};

/// `count` blocks from block `first` on, both in blocks.
#[derive(Clone, Copy, Debug, PartialEq, Eq)]
pub struct Range {
    pub first: u64,
    pub count: u64,
}

impl Range {
    /// Whether `len` blocks from `offset` on, counted from the range's first, lie in the range.
    pub fn within(&self, offset: u64, len: u32) -> bool
        ensures { IsTrue result ↔ IsWithin self.now.count offset len }
    {
        len as u64 <= self.count && offset <= self.count - len as u64
    }
}
