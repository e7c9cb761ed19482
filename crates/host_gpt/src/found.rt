// What is found at one header.
ghost use Rattle.std.specs.Prelude.{◌≡◌, [], ◌*◌, ◌<◌, ◌≤◌, IsTrue, IsErrOf, IfOk, OnOk, IfSome};
ghost use Rattle.std.specs.Prelude.{length, drop, take, vec_len};
ghost use Rattle.std.specs.List.{flat_map};
ghost use Rattle.host_io.specs.Causes.{Rose};
ghost use Rattle.host_io.specs.Disks.{OnlyReads};
ghost use Rattle.host_gpt.specs.Header.{IsEntrySize, array_length};
ghost use Rattle.host_gpt.specs.Image.{AreInside, current_image};
ghost use Rattle.host_gpt.specs.Reads.{FindsTable, HasUsed, HeaderAt};
ghost use Rattle.host_gpt.specs.Table.{array_of};

use crate::array::used_entries;
use crate::crc::crc32;
use crate::header::{Header, are_inside};
use crate::read_error::ReadError;
use crate::{Table, Which};
use host_block::BlockSize;
use host_io::Disk;
use std::alloc::Global;

/// What is found at a header.
#[derive(Drop)]
pub enum Found {
    /// It is valid, and its table is this one.
    Valid(Table),
    /// It agrees, and is too large.
    Large,
    Neither,
}

/// Reads the header in block `place`, and its array.
pub fn find_at<D: Disk>(
    alloc: Global,
    disk: &mut D,
    blocks: u64,
    size: BlockSize,
    which: Which,
    place: u64,
) -> Result<Found, ReadError>
    requires blocks { blocks ≡ (D.shape disk.old).blocks }
    requires size { size ≡ (D.shape disk.old).size }
    requires place { place < blocks }
    ensures shape { D.shape disk.new ≡ D.shape disk.old }
    ensures state { D.state disk.new ≡ D.state disk.old }
    ensures opening { D.opening disk.new ≡ D.opening disk.old }
    ensures counts { OnlyReads (D.counts disk.old) (D.counts disk.new) (D.never_fails disk.old)
        (D.never_fails disk.new) }
    ensures fault { IsErrOf result ReadError.Disk
        → Rose (D.counts disk.old).faults (D.counts disk.new).faults }
    ensures found { IsTrue (D.shape disk.old).tells
        → IfOk result (FindsTable (current_image (D.state disk.old)) place which) }
    ensures used { IfOk result HasUsed }
{
    let mut block = vec![in alloc; 0u8; size.bytes() as usize]?;
    let header = match read_header(disk, blocks, place, &mut block)? {
        Some(header) => header,
        None => return Ok(Found::Neither),
    };
    if header.is_large() {
        return Ok(Found::Large);
    }
    let count = header.array_blocks(size.bytes());
    if !are_inside(blocks, header.array_lba, count) {
        return Ok(Found::Neither);
    }
    let array = read_array(alloc, disk, blocks, &header, count, &mut block)?;
    if crc32(&array) != header.array_crc {
        return Ok(Found::Neither);
    }
    let entries = used_entries(alloc, &array, header.entry_count, header.entry_size)?;
    Ok(Found::Valid(Table {
        which,
        disk_id: header.disk_id,
        first_usable: header.first_usable,
        last_usable: header.last_usable,
        entries,
    }))
}

// The header in block `place`, where it agrees.
fn read_header<D: Disk>(
    disk: &mut D,
    blocks: u64,
    place: u64,
    block: &mut [u8],
) -> Result<Option<Header>, ReadError>
    requires blocks { blocks ≡ (D.shape disk.old).blocks }
    requires place { place < blocks }
    requires piece { length block.old ≡ (D.shape disk.old).size }
    requires long { 92 ≤ length block.old }
    ensures shape { D.shape disk.new ≡ D.shape disk.old }
    ensures state { D.state disk.new ≡ D.state disk.old }
    ensures opening { D.opening disk.new ≡ D.opening disk.old }
    ensures counts { OnlyReads (D.counts disk.old) (D.counts disk.new) (D.never_fails disk.old)
        (D.never_fails disk.new) }
    ensures fault { IsErrOf result ReadError.Disk
        → Rose (D.counts disk.old).faults (D.counts disk.new).faults }
    ensures header { IsTrue (D.shape disk.old).tells
        → IfOk result (HeaderAt (current_image (D.state disk.old)) place) }
    ensures entries { IfOk result
        (λ found. IfSome found (λ header. IsEntrySize header.entry_size)) }
{
    disk.read_block(place, block)?;
    Ok(Header::parse(block, place))
}

// The entry array, which lies in so many blocks.
fn read_array<D: Disk>(
    alloc: Global,
    disk: &mut D,
    blocks: u64,
    header: &Header,
    count: u64,
    block: &mut [u8],
) -> Result<Vec<u8>, ReadError>
    requires blocks { blocks ≡ (D.shape disk.old).blocks }
    requires inside { AreInside blocks header.now.array_lba count }
    requires piece { length block.old ≡ (D.shape disk.old).size }
    requires reaches { array_length header.now ≤ count * (D.shape disk.old).size }
    requires small { array_length header.now ≤ 1048576 }
    ensures shape { D.shape disk.new ≡ D.shape disk.old }
    ensures state { D.state disk.new ≡ D.state disk.old }
    ensures opening { D.opening disk.new ≡ D.opening disk.old }
    ensures counts { OnlyReads (D.counts disk.old) (D.counts disk.new) (D.never_fails disk.old)
        (D.never_fails disk.new) }
    ensures fault { IsErrOf result ReadError.Disk
        → Rose (D.counts disk.old).faults (D.counts disk.new).faults }
    ensures len { IfOk result (λ all. length all.items ≡ array_length header.now) }
    ensures bytes { IsTrue (D.shape disk.old).tells
        → IfOk result (λ all. all.items ≡ array_of (current_image (D.state disk.old)) header.now) }
{
    let len = header.array_len() as usize;
    let mut array = Vec::with_capacity(alloc, len + block.len())?;
    read_blocks(disk, blocks, header.array_lba, count, block, &mut array)?;
    array.truncate(len);
    Ok(array)
}

// Reads the bytes of blocks, one block at a time, into an empty list.
fn read_blocks<D: Disk>(
    disk: &mut D,
    blocks: u64,
    first: u64,
    count: u64,
    block: &mut [u8],
    all: &mut Vec<u8>,
) -> Result<(), ReadError>
    requires blocks { blocks ≡ (D.shape disk.old).blocks }
    requires inside { AreInside blocks first count }
    requires piece { length block.old ≡ (D.shape disk.old).size }
    requires empty { all.old.items ≡ [] }
    ensures shape { D.shape disk.new ≡ D.shape disk.old }
    ensures state { D.state disk.new ≡ D.state disk.old }
    ensures opening { D.opening disk.new ≡ D.opening disk.old }
    ensures counts { OnlyReads (D.counts disk.old) (D.counts disk.new) (D.never_fails disk.old)
        (D.never_fails disk.new) }
    ensures fault { IsErrOf result ReadError.Disk
        → Rose (D.counts disk.old).faults (D.counts disk.new).faults }
    ensures len { OnOk result (vec_len all.new ≡ count * (D.shape disk.old).size) }
    ensures bytes { IsTrue (D.shape disk.old).tells
        → OnOk result (all.new.items
        ≡ flat_map (λ b. b) (take count (drop first (current_image (D.state disk.old))))) }
{
    for k in 0..count {
        disk.read_block(first + k, block)?;
        all.extend_from_slice(block)?;
    }
    Ok(())
}
