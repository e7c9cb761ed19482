use crate::{Entry, Which};
use host_block::ReservedList;

/// The used entries of a table, by rising number.
pub type Entries = ReservedList<Entry>;

/// The partition table of an image.
#[derive(Drop)]
pub struct Table {
    /// The header that it was read from.
    pub which: Which,
    /// The GUID of the disk, as it is stored.
    pub disk_id: [u8; 16],
    /// The first block that a partition may have.
    pub first_usable: u64,
    /// The last block that a partition may have.
    pub last_usable: u64,
    pub entries: Entries,
}
