// The entry array.
ghost use Rattle.std.specs.Prelude.{◌≡◌, ◌*◌, ◌<◌, ◌≤◌, ◌++◌, length, IfOk};
ghost use Rattle.host_gpt.specs.Entries.{AreUsed, entries_from, used};

use crate::entry::is_used_entry;
use crate::{Entries, Entry};
use host_block::Oom;
use std::alloc::Global;

/// The used entries of an array of `count` entries of `size` bytes, by rising number.
pub fn used_entries(alloc: Global, array: &[u8], count: u32, size: u32) -> Result<Entries, Oom>
    requires whole { length array.now ≡ count * size }
    requires size { 128 ≤ size }
    ensures entries { IfOk result (λ list. list.items ≡ entries_from 1 size count array.now) }
    ensures used { IfOk result (λ list. AreUsed list.items) }
{
    let mut entries = Entries::with_room(alloc, count as u64)?;
    for i in 0..count {
        let start = i as usize * size as usize;
        push_used(&mut entries, i + 1, &array[start..start + size as usize]);
    }
    Ok(entries)
}

// Adds the entry of this number, where it is used.
fn push_used(entries: &mut Entries, number: u32, bytes: &[u8])
    requires room { length entries.old.items < entries.old.room }
    requires size { 128 ≤ length bytes.now }
    ensures added { entries.new.items ≡ entries.old.items ++ used number bytes.now }
    ensures room { entries.new.room ≡ entries.old.room }
{
    if is_used_entry(bytes) {
        entries.push(Entry::parse(number, bytes));
    }
}
