//! Caches over a disk in memory.
ghost use Rattle.std.specs.Prelude.{◌≡◌, ◌<◌, ◌≤◌, IfSome};
ghost use Rattle.host_cache.specs.Seen.{shape_of};

mod random_calls;

use host_block::BlockSize;
use host_cache::{Cache, CacheError};
use host_io::{CallKind, Disk, FailAt, MemDisk};
use random_calls::{Tally, play};
use std::alloc::{AllocError, Global};
use std::test::Fail;

// A cache over a disk whose image has so many blocks of 512 bytes.
fn cache_over<D: Disk + Drop>(
    alloc: Global,
    mut disk: D,
    size: BlockSize,
    blocks: u64,
) -> Option<Cache<D>>
    requires { size ≡ 512 }
    ensures blocks { IfSome result (λ cache. (shape_of cache).blocks ≡ blocks) }
    ensures size { IfSome result (λ cache. (shape_of cache).size ≡ 512) }
{
    match disk.attach_image("any", size, true) {
        Ok(given) if given == blocks => match Cache::new(alloc, disk, blocks, size) {
            Ok(cache) => Some(cache),
            Err(_) => None,
        },
        _ => None,
    }
}

// Writes the first n blocks, each with its number and one more.
fn write_first<D: Disk>(cache: &mut Cache<D>, n: u8) -> bool
    requires blocks { n ≤ (shape_of cache.old).blocks }
    requires size { (shape_of cache.old).size ≡ 512 }
    ensures { shape_of cache.new ≡ shape_of cache.old }
{
    for b in 0..n {
        let from = [b.wrapping_add(1); 512];
        if cache.write(b as u64, &from).is_err() {
            return false;
        }
    }
    true
}

// Writes block 32, which is made of the byte 33 then.
fn write_next<D: Disk>(cache: &mut Cache<D>) -> Result<(), CacheError>
    requires blocks { 32 < (shape_of cache.old).blocks }
    requires size { (shape_of cache.old).size ≡ 512 }
    ensures { shape_of cache.new ≡ shape_of cache.old }
{
    cache.write(32, &[33u8; 512])
}

// The first byte of a block.
fn first_of<D: Disk>(cache: &mut Cache<D>, b: u64) -> Option<u8>
    requires block { b < (shape_of cache.old).blocks }
    requires size { (shape_of cache.old).size ≡ 512 }
    ensures { shape_of cache.new ≡ shape_of cache.old }
{
    let mut into = [0u8; 512];
    match cache.read(b, &mut into) {
        Ok(()) => Some(into[0]),
        Err(_) => None,
    }
}

// The first bytes of the first two blocks, on the disk itself.
fn first_two_on<D: Disk>(disk: &mut D, size: BlockSize) -> Option<(u8, u8)>
    requires { size ≡ 512 }
{
    let mut one = [0u8; 512];
    let mut two = [0u8; 512];
    match disk.attach_image("any", size, false) {
        Ok(64) => {
            disk.read_block(0, &mut one).ok()?;
            disk.read_block(1, &mut two).ok()?;
            Some((one[0], two[0]))
        }
        _ => None,
    }
}

#[test]
fn the_least_recently_used_goes(rt: HostRuntime) -> Result<(), Fail> {
    let alloc = rt.alloc();
    let size = BlockSize::new(512).ok_or("size")?;
    assert_eq!(rt; size.bytes(), 512);
    let disk = MemDisk::new(alloc, vec![in alloc; 99u8; 32768]?, Vec::new(alloc));
    let mut cache = cache_over(alloc, disk, size, 64).ok_or("no cache")?;
    assert!(rt; write_first(&mut cache, 32));
    assert_eq!(rt; first_of(&mut cache, 0), Some(1));
    assert!(rt; write_next(&mut cache).is_ok());
    let mut disk = cache.into_disk();
    assert_eq!(rt; disk.counts().writes, 1);
    assert_eq!(rt; disk.counts().reads, 0);
    assert_eq!(rt; first_two_on(&mut disk, size), Some((99, 2)));
    Ok(())
}

#[test]
fn a_victim_is_written_first(rt: HostRuntime) -> Result<(), Fail> {
    let alloc = rt.alloc();
    let size = BlockSize::new(512).ok_or("size")?;
    assert_eq!(rt; size.bytes(), 512);
    let first_write = FailAt {
        kind: CallKind::Write,
        nr: 1,
        part: 0,
    };
    let fails = vec![in alloc; first_write]?;
    let disk = MemDisk::new(alloc, vec![in alloc; 99u8; 32768]?, fails);
    let mut cache = cache_over(alloc, disk, size, 64).ok_or("no cache")?;
    assert!(rt; write_first(&mut cache, 32));
    assert_eq!(rt; write_next(&mut cache), Err(CacheError::Disk));
    assert_eq!(rt; first_of(&mut cache, 5), Some(6));
    assert_eq!(rt; first_of(&mut cache, 0), Some(1));
    assert_eq!(rt; first_of(&mut cache, 32), Some(99));
    let counts = cache.into_disk().counts();
    assert_eq!(rt; (counts.writes, counts.reads, counts.faults), (3, 2, 1));
    Ok(())
}

// Calls that fail: each fifth read, write and sync of a list.
fn failing_calls(alloc: Global) -> Result<Vec<FailAt>, AllocError> {
    let mut fails = Vec::new(alloc);
    for nr in 1..400u64 {
        let kind = match nr % 3 {
            0 => CallKind::Read,
            1 => CallKind::Write,
            _ => CallKind::Sync,
        };
        fails.push(FailAt {
            kind,
            nr: nr * 5,
            part: (nr % 2) as u32,
        })?;
    }
    Ok(fails)
}

#[test]
fn random_calls_do_as_an_array(rt: HostRuntime) -> Result<(), Fail> {
    let alloc = rt.alloc();
    let size = BlockSize::new(512).ok_or("size")?;
    assert_eq!(rt; size.bytes(), 512);
    let disk = MemDisk::new(alloc, vec![in alloc; 7u8; 102400]?, failing_calls(alloc)?);
    let mut cache = cache_over(alloc, disk, size, 200).ok_or("no cache")?;
    let mut fills = [7u8; 200];
    let Tally {
        same,
        other,
        failed,
    } = play(&mut cache, &mut fills, 1, 20000);
    assert_eq!(rt; other, 0);
    assert!(rt; failed > 100);
    assert_eq!(rt; same.wrapping_add(failed), 20000);
    Ok(())
}

#[test]
fn errors_are_printed(rt: HostRuntime) -> Result<(), Fail> {
    let text = format!(in rt.alloc(); "{}; {}", CacheError::Disk, CacheError::Oom)?;
    assert_eq!(rt; text.as_str(), "the disk failed; out of memory");
    Ok(())
}
