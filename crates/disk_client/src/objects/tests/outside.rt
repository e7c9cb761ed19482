//! A disk, a source and a sink in memory.
ghost use Rattle.std.specs.Prelude.{◌≡◌, ◌<◌};

use host_block::{BlockSize, Oom};
use host_io::{
    Counts, Disk, DiskError, MemDisk, MemSink, MemSource, Sink, SinkFailed, Source, SourceFailed,
    copy_image,
};
use std::test::Fail;

// The byte of which a block is made, where all its bytes are alike.
fn fill_of(block: &[u8]) -> Option<u8> {
    let first = *block.first()?;
    if block.iter().all(|byte| *byte == first) {
        Some(first)
    } else {
        None
    }
}

// Writes a block of ones and then one of twos to block 1.
fn write_twice<D: Disk>(disk: &mut D) -> Result<(), DiskError>
    requires two { 1 < (D.shape disk.old).blocks }
    requires size { (D.shape disk.old).size ≡ 512 }
    ensures { D.shape disk.new ≡ D.shape disk.old }
{
    disk.write_block(1, &[1u8; 512])?;
    disk.write_block(1, &[2u8; 512])
}

// The byte of which block b is made.
fn read_fill<D: Disk>(disk: &mut D, b: u64) -> Option<u8>
    requires block { b < (D.shape disk.old).blocks }
    requires size { (D.shape disk.old).size ≡ 512 }
    ensures { D.shape disk.new ≡ D.shape disk.old }
{
    let mut into = [0u8; 512];
    disk.read_block(b, &mut into).ok()?;
    fill_of(&into)
}

// Attaches an image of two blocks, and gives the bytes of which they are made.
fn fills_of<D: Disk>(disk: &mut D, size: BlockSize) -> Option<(u8, u8)>
    requires { size ≡ 512 }
{
    match disk.attach_image("any", size, true) {
        Ok(2) => Some((read_fill(disk, 0)?, read_fill(disk, 1)?)),
        _ => None,
    }
}

fn counts(reads: u64, writes: u64) -> Counts {
    Counts {
        faults: 0,
        reads,
        writes,
        syncs: 0,
    }
}

#[test]
fn a_crash_picks_block_by_block(rt: HostRuntime) -> Result<(), Fail> {
    let alloc = rt.alloc();
    let size = BlockSize::new(512).ok_or("size")?;
    assert_eq!(rt; size.bytes(), 512);
    let mut disk = MemDisk::new(alloc, vec![in alloc; 7u8; 1030]?, Vec::new(alloc));
    let Ok(2) = disk.attach_image("any", size, true) else {
        return Err(Fail::from("attach"));
    };
    write_twice(&mut disk)?;
    assert_eq!(rt; read_fill(&mut disk, 1), Some(2));
    assert_eq!(rt; disk.counts(), counts(1, 2));
    let mut left = disk.crash(&[0, 1])?;
    assert_eq!(rt; fills_of(&mut left, size), Some((7, 1)));
    let mut left = disk.crash(&[9, 9])?;
    assert_eq!(rt; fills_of(&mut left, size), Some((7, 2)));
    let mut left = disk.crash(&[])?;
    assert_eq!(rt; fills_of(&mut left, size), Some((7, 7)));
    assert_eq!(rt; left.counts(), counts(2, 0));
    Ok(())
}

#[test]
fn a_disk_is_copied_whole(rt: HostRuntime) -> Result<(), Fail> {
    let alloc = rt.alloc();
    let size = BlockSize::new(512).ok_or("size")?;
    let mut disk = MemDisk::new(alloc, vec![in alloc; 7u8; 1030]?, Vec::new(alloc));
    let blocks = disk.attach_image("any", size, false)?;
    let all = copy_image(alloc, &mut disk, blocks, size)?;
    assert_eq!(rt; all.len(), 1024);
    assert_eq!(rt; fill_of(&all), Some(7));
    assert_eq!(rt; disk.counts(), counts(2, 0));
    Ok(())
}

#[test]
fn a_source_and_a_sink(rt: HostRuntime) -> Result<(), Fail> {
    let alloc = rt.alloc();
    let mut source = MemSource::new(vec![in alloc; 1u8, 2, 3]?, vec![in alloc; 2u64]?);
    let mut into = [0u8; 2];
    assert!(rt; source.take(&mut into) == Ok(2));
    assert_eq!(rt; into, [1u8, 2]);
    assert!(rt; source.take(&mut into).is_err());
    assert!(rt; source.take(&mut into) == Ok(1));
    assert!(rt; source.take(&mut into) == Ok(0));
    let mut sink = MemSink::new(alloc, 3, Vec::new(alloc))?;
    assert!(rt; sink.put(&[1, 2]) == Ok(2));
    assert!(rt; sink.put(&[3, 4]) == Ok(1));
    assert!(rt; sink.put(&[5]).is_err());
    assert_eq!(rt; sink.bytes(), [1u8, 2, 3].as_slice());
    Ok(())
}

#[test]
fn errors_are_printed(rt: HostRuntime) -> Result<(), Fail> {
    let text = format!(in rt.alloc();
        "{Oom}; {}; {}; {SourceFailed}; {SinkFailed}",
        DiskError::Failed,
        DiskError::Oom
    )?;
    assert_eq!(rt;
        text.as_str(),
        "out of memory; the disk failed; out of memory; the source failed; the sink failed"
    );
    Ok(())
}
