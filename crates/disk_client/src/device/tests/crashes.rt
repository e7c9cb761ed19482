//! Crash images along a random history.
ghost use Rattle.std.specs.Prelude.{◌≡◌};

use super::crash_judge::{BLOCKS, may_leave};
use super::open::open_device;
use super::random_steps::{drawn, play};
use host_block::BlockSize;
use host_io::{CallKind, Disk, FailAt, MemDisk};
use std::alloc::{AllocError, Global};
use std::test::Fail;

// Calls that fail: each fifth read, write and sync of a list.
fn failing_calls(alloc: Global) -> Result<Vec<FailAt>, AllocError> {
    let mut fails = Vec::new(alloc);
    for nr in 1..400u64 {
        let kind = match nr % 3 {
            0 => CallKind::Read,
            1 => CallKind::Write,
            _ => CallKind::Sync,
        };
        fails.push(FailAt {
            kind,
            nr: nr * 5,
            part: (nr % 3) as u32,
        })?;
    }
    Ok(fails)
}

// The byte of which each block of a disk is made. `None` where one is made of several.
fn image_of<D: Disk>(disk: &mut D) -> Option<[u8; BLOCKS]>
    requires blocks { (D.shape disk.old).blocks ≡ 40 }
    requires size { (D.shape disk.old).size ≡ 512 }
{
    let mut image = [0u8; BLOCKS];
    for b in 0..BLOCKS {
        let mut into = [0u8; 512];
        if disk.read_block(b as u64, &mut into).is_err() {
            return None;
        }
        if into.iter().any(|byte| *byte != into[0]) {
            return None;
        }
        image[b] = into[0];
    }
    Some(image)
}

fn draw_picks(alloc: Global, seed: u64) -> Result<Vec<u32>, AllocError> {
    let mut x = seed;
    let mut picks = Vec::new(alloc);
    for _ in 0..BLOCKS {
        x = drawn(x);
        picks.push((x >> 40) as u32 % 5)?;
    }
    Ok(picks)
}

// Makes a random history of so many steps, and tells how many of twelve crash images it allows.
// None are where a read gave another byte than a plain array, or an entry is missing.
fn allowed_after(alloc: Global, count: u32) -> Result<u32, Fail> {
    let size = BlockSize::new(512).ok_or("size")?;
    let disk = MemDisk::new(alloc, vec![in alloc; 7u8; 20480]?, failing_calls(alloc)?);
    let mut fills = [7u8; BLOCKS];
    let (mut device, blocks) = open_device(alloc, disk, size, 0).ok_or("device")?;
    if size.bytes() != 512 || blocks != 40 {
        return Ok(0);
    }
    let tally = play(alloc, &mut device, &mut fills, 1, count);
    let (steps, cache) = device.into_parts();
    let steps = steps.into_list().ok_or("steps")?;
    if tally.other != 0 || steps.len() != count as u64 {
        return Ok(0);
    }
    let disk = cache.into_disk();
    let mut allowed = 0u32;
    for n in 0..12u64 {
        let picks = draw_picks(alloc, count as u64 * 12 + n)?;
        let mut left = disk.crash(&picks)?;
        let Ok(40) = left.attach_image("any", size, true) else {
            return Err(Fail::from("attach"));
        };
        let image = image_of(&mut left).ok_or("image")?;
        if may_leave(steps.as_slice(), 7, &image) {
            allowed = allowed.wrapping_add(1);
        }
    }
    Ok(allowed)
}

#[test]
fn crashes_along_a_random_history(rt: HostRuntime) -> Result<(), Fail> {
    for hundreds in 1..51u32 {
        assert_eq!(rt; allowed_after(rt.alloc(), hundreds * 100)?, 12);
    }
    Ok(())
}
