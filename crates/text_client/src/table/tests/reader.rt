//! What the reader tells of an image.

use host_block::BlockSize;
use host_gpt::sample::{base_image, large_image};
use host_gpt::{Table, TableError, Which, crc32, read_table};
use host_io::{Disk, FailAt, MemDisk};
use std::alloc::Global;
use std::test::Fail;

/// What a reader tells of an image, in short.
#[derive(Clone, Copy, Debug, PartialEq, Eq)]
pub enum Answer {
    Table(Which),
    Error(TableError),
    Unread,
}

// The table of the image that a disk has, where it can be attached.
fn table_on<D: Disk>(
    alloc: Global,
    disk: &mut D,
    size: BlockSize,
) -> Option<Result<Table, TableError>> {
    let blocks = disk.attach_image("any", size, false).ok()?;
    Some(read_table(alloc, disk, blocks, size))
}

// The table of these bytes, on a disk that fails at these calls.
fn table_of(
    alloc: Global,
    bytes: Vec<u8>,
    size: u32,
    fails: Vec<FailAt>,
) -> Option<Result<Table, TableError>> {
    let mut disk = MemDisk::new(alloc, bytes, fails);
    table_on(alloc, &mut disk, BlockSize::new(size)?)
}

/// What the reader tells of these bytes.
pub fn answer_of(alloc: Global, bytes: Vec<u8>, size: u32, fails: Vec<FailAt>) -> Answer {
    match table_of(alloc, bytes, size, fails) {
        Some(Ok(table)) => Answer::Table(table.which),
        Some(Err(error)) => Answer::Error(error),
        None => Answer::Unread,
    }
}

// The table of a whole image with this CRC.
fn table_with(alloc: Global, bytes: Vec<u8>, crc: u32) -> Result<Table, Fail> {
    if crc32(&bytes) != crc {
        return Err(Fail::from("another image"));
    }
    let read = table_of(alloc, bytes, 512, Vec::new(alloc)).ok_or("disk")?;
    Ok(read.ok().ok_or("table")?)
}

// The first and the last block that the table may give, its number of entries, and of one of them
// the number, the first and the last block.
fn told(table: &Table, at: u64) -> Option<[u64; 6]> {
    let entry = table.entries.get(at)?;
    Some([
        table.first_usable,
        table.last_usable,
        table.entries.len(),
        entry.number as u64,
        entry.first,
        entry.last,
    ])
}

// The CRCs of the whole images and what the tables say are from another program.
#[test]
fn whole_images(rt: HostRuntime) -> Result<(), Fail> {
    let alloc = rt.alloc();
    let image = base_image(alloc).ok().ok_or("memory")?;
    let table = table_with(alloc, image.as_slice().to_vec(alloc)?, 0x9c02_40b8)?;
    assert_eq!(rt; table.which, Which::Primary);
    assert_eq!(rt; told(&table, 1), Some([34, 94, 2, 2, 64, 94]));
    let beta = table.entries.get(1).ok_or("entry")?;
    assert_eq!(rt; beta.id, [0x22; 16]);
    let image = large_image(alloc).ok().ok_or("memory")?;
    let table = table_with(alloc, image.as_slice().to_vec(alloc)?, 0xaa53_8cef)?;
    assert_eq!(rt; told(&table, 0), Some([34, 131_038, 1, 1, 2_048, 131_038]));
    Ok(())
}
