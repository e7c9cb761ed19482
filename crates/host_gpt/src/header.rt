// The header of a table.
ghost use Rattle.std.specs.Prelude.{◌≡◌, ◌↔◌, ◌*◌, ◌<◌, ◌≤◌, ℕ, IsTrue, length, MatchOption};
ghost use Rattle.host_gpt.specs.Header.{Agrees, IsEntrySize, IsLarge, array_length, header_of};
ghost use Rattle.host_gpt.specs.Image.{AreInside};
ghost use Rattle.host_gpt.specs.Table.{IsArrayInside};

use crate::crc::header_crc32;
use crate::field::{u32_at, u64_at};

const ENTRIES: u32 = 1024;

const ARRAY_BYTES: u64 = 1_048_576;

/// The fields of a header (UEFI 2.10, section 5.3.2) that are used once it agrees.
#[derive(Clone, Copy, Debug, PartialEq, Eq)]
pub struct Header {
    pub first_usable: u64,
    pub last_usable: u64,
    pub disk_id: [u8; 16],
    pub array_lba: u64,
    pub entry_count: u32,
    pub entry_size: u32,
    pub array_crc: u32,
}

impl Header {
    /// The header in the block of this number, where it agrees.
    pub fn parse(block: &[u8], place: u64) -> Option<Header>
        requires { 92 ≤ length block.now }
        ensures { MatchOption result (¬ Agrees place block.now)
            (λ header. Agrees place block.now × (header ≡ header_of block.now)) }
    {
        if agrees(block, place) {
            Some(Header::fields(block))
        } else {
            None
        }
    }

    // The fields of a header.
    fn fields(block: &[u8]) -> Header
        requires { 92 ≤ length block.now }
        ensures { result ≡ header_of block.now }
    {
        let mut disk_id = [0; 16];
        disk_id.copy_from_slice(&block[56..72]);
        Header {
            first_usable: u64_at(block, 40),
            last_usable: u64_at(block, 48),
            disk_id,
            array_lba: u64_at(block, 72),
            entry_count: u32_at(block, 80),
            entry_size: u32_at(block, 84),
            array_crc: u32_at(block, 88),
        }
    }

    /// The length of the entry array.
    pub fn array_len(&self) -> u64
        ensures { result ≡ array_length self.now }
    {
        self.entry_count as u64 * self.entry_size as u64
    }

    /// Whether the table has more entries, or a longer array, than are read.
    pub fn is_large(&self) -> bool
        ensures { IsTrue result ↔ IsLarge self.now }
    {
        self.entry_count > ENTRIES || self.array_len() > ARRAY_BYTES
    }

    /// The number of blocks that the array touches.
    pub fn array_blocks(&self, size: u32) -> u64
        requires { 0 < size }
        ensures reaches { array_length self.now ≤ result * size }
        ensures inside { (blocks : ℕ) → AreInside blocks self.now.array_lba result
            ↔ IsArrayInside blocks size self.now }
    {
        self.array_len().div_ceil(size as u64)
    }
}

// Whether these blocks lie in an image of so many blocks.
pub fn are_inside(blocks: u64, first: u64, count: u64) -> bool
    ensures { IsTrue result ↔ AreInside blocks first count }
{
    count == 0 || (first < blocks && count <= blocks - first)
}

// Whether the header in the block of this number agrees.
fn agrees(block: &[u8], place: u64) -> bool
    requires { 92 ≤ length block.now }
    ensures { IsTrue result ↔ Agrees place block.now }
{
    let size = u32_at(block, 12) as usize;
    if !block.starts_with(b"EFI PART") || size < 92 || size > block.len() {
        return false;
    }
    if u32_at(block, 16) != header_crc32(block, size) {
        return false;
    }
    u64_at(block, 24) == place && is_entry_size(u32_at(block, 84))
}

// Whether this is 128 times a power of two.
fn is_entry_size(size: u32) -> bool
    ensures { IsTrue result ↔ IsEntrySize size }
{
    size % 128 == 0 && (size / 128).is_power_of_two()
}
