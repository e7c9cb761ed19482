// A used entry of a table.
ghost use Rattle.std.specs.Prelude.{◌≡◌, ◌≤◌, length};
ghost use Rattle.host_gpt.specs.Entries.{entry_in_bytes, is_used, units};

use crate::field::u64_at;
use byteorder::{ByteOrder, LittleEndian};

/// A used entry of the table (UEFI 2.10, section 5.3.3).
#[derive(Clone, Copy, Debug, PartialEq, Eq)]
pub struct Entry {
    /// Its place in the array, counted from 1.
    pub number: u32,
    /// The GUIDs of its type and of itself, as they are stored.
    pub type_id: [u8; 16],
    pub id: [u8; 16],
    /// Its first and last block.
    pub first: u64,
    pub last: u64,
    pub attributes: u64,
    /// Units of UTF-16, with zeros after the name.
    pub name: [u16; 36],
}

impl Entry {
    /// The entry of this number in these bytes.
    pub fn parse(number: u32, bytes: &[u8]) -> Entry
        requires { 128 ≤ length bytes.now }
        ensures { result ≡ entry_in_bytes number bytes.now }
    {
        let mut type_id = [0; 16];
        type_id.copy_from_slice(&bytes[..16]);
        let mut id = [0; 16];
        id.copy_from_slice(&bytes[16..32]);
        Entry {
            number,
            type_id,
            id,
            first: u64_at(bytes, 32),
            last: u64_at(bytes, 40),
            attributes: u64_at(bytes, 48),
            name: name_of(&bytes[56..128]),
        }
    }
}

// The 36 units of a name.
fn name_of(bytes: &[u8]) -> [u16; 36]
    requires { length bytes.now ≡ 72 }
    ensures { result ≡ units 36 bytes.now }
{
    let mut name = [0; 36];
    LittleEndian::read_u16_into(bytes, &mut name);
    name
}

/// Whether an entry is used: its type isn't all zero.
pub fn is_used_entry(bytes: &[u8]) -> bool
    requires { 16 ≤ length bytes.now }
    ensures { result ≡ is_used bytes.now }
{
    let type_id = &bytes[..16];
    for byte in type_id {
        if *byte != 0 {
            return true;
        }
    }
    false
}
