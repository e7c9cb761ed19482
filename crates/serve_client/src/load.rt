use host_block::{BlockSize, Range};

/// What a client asks for: so many records, on this range of a device of so many blocks of this
/// size.
#[derive(Clone, Copy)]
pub struct Load {
    pub range: Range,
    pub blocks: u64,
    pub size: BlockSize,
    pub records: u32,
}
