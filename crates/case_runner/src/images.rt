//! The disk at the end of a play, and as a crash may leave it.

use crate::case::Case;
use crate::history::allows;
use crate::play::{Left, Setup};
use crate::wanted::Wanted;
use crate::wrong::{Wrong, ensure};
use host_block::BlockSize;
use host_io::{Disk, MemDisk, copy_image};
use std::alloc::{AllocError, Global};

/// How many crashes are looked at.
const CRASHES: u32 = 12;

/// Larger images are looked at only where the case asks for it.
const SMALL: u64 = 1_024;

/// The most steps whose history is looked at.
const STEPS: u64 = 20_000;

/// Looks at the disk at the end, and at twelve crash images of it.
pub fn look_at_images(
    alloc: Global,
    case: &Case<'_>,
    setup: &Setup,
    left: &Left,
    is_good: bool,
) -> Result<(), Wrong> {
    let Some(size) = left.size() else {
        return Err(Wrong::Play { what: "no size" });
    };
    let blocks = setup.image.len() as u64 / 512;
    let is_asked = case.wanted.iter().any(|line| is_of_image(&line.wanted));
    if blocks > SMALL && !(is_asked && is_good) {
        return Ok(());
    }
    for number in 0..=CRASHES {
        let picks = picks_of(alloc, number, blocks)?;
        let image = Image {
            bytes: left_by(alloc, left.disk(), size, &picks)?,
            size,
            is_end: number == 0,
        };
        if blocks <= SMALL {
            look_at_history(setup, left, &image)?;
        }
        if is_good {
            look_at_wanted(case, setup, &image)?;
        }
    }
    Ok(())
}

// An image that a play or a crash left.
#[derive(Drop)]
struct Image {
    bytes: Vec<u8>,
    size: BlockSize,
    is_end: bool,
}

fn is_of_image(wanted: &Wanted<'_>) -> bool {
    match wanted {
        Wanted::Block { .. } => true,
        Wanted::Crash { .. } => true,
        Wanted::Others => true,
        _ => false,
    }
}

// For each block which of the writes that wait for a sync is durable: the last one for the end, and
// for the crashes none, the last, the first, and what is drawn from a fixed seed.
fn picks_of(alloc: Global, number: u32, blocks: u64) -> Result<Vec<u32>, AllocError> {
    let mut picks = Vec::new(alloc);
    let mut drawn = number.wrapping_mul(40_503);
    for _ in 0..blocks {
        drawn = drawn.wrapping_mul(1_664_525).wrapping_add(1_013_904_223);
        picks.push(match number {
            0 => u32::MAX,
            1 => 0,
            2 => u32::MAX,
            3 => 1,
            _ => (drawn >> 24) % 4,
        })?;
    }
    Ok(picks)
}

// The bytes of the disk as a crash with these picks leaves it.
fn left_by(
    alloc: Global,
    disk: &MemDisk,
    size: BlockSize,
    picks: &[u32],
) -> Result<Vec<u8>, Wrong> {
    let mut left = disk.crash(picks)?;
    let Ok(blocks) = left.attach_image("image", size, false) else {
        return Err(Wrong::Play { what: "no image" });
    };
    match copy_image(alloc, &mut left, blocks, size) {
        Ok(bytes) => Ok(bytes),
        Err(_) => Err(Wrong::Memory(AllocError)),
    }
}

// A block of some bytes; none where they have no such block.
fn block_of(bytes: &[u8], size: BlockSize, b: u64) -> &[u8] {
    let width = size.bytes() as u64;
    let start = b.saturating_mul(width);
    let end = start.saturating_add(width);
    match bytes.get(start as usize..end as usize) {
        Some(block) => block,
        None => &[],
    }
}

fn look_at_history(setup: &Setup, left: &Left, image: &Image) -> Result<(), Wrong> {
    let Some(report) = &left.outcome.report else {
        return Ok(());
    };
    if report.steps.len() > STEPS {
        return Ok(());
    }
    for b in 0..report.blocks {
        let before = block_of(&setup.image, image.size, b);
        let now = block_of(&image.bytes, image.size, b);
        ensure(
            allows(report.steps.as_slice(), b, before, now),
            "a block has what the steps don't allow",
        )?;
    }
    Ok(())
}

fn look_at_wanted(case: &Case<'_>, setup: &Setup, image: &Image) -> Result<(), Wrong> {
    for line in &case.wanted {
        if !is_met(case, setup, image, &line.wanted) {
            return Err(Wrong::Line {
                line: line.line,
                what: "a block isn't as it should be",
            });
        }
    }
    Ok(())
}

fn is_met(case: &Case<'_>, setup: &Setup, image: &Image, wanted: &Wanted<'_>) -> bool {
    match wanted {
        Wanted::Block { block, byte } => {
            !image.is_end || is_made_of(block_of(&image.bytes, image.size, *block), *byte)
        }
        Wanted::Crash { block, bytes } => {
            let found = block_of(&image.bytes, image.size, *block);
            image.is_end || bytes.iter().any(|byte| is_made_of(found, *byte))
        }
        Wanted::Others => are_others_same(case, setup, image),
        _ => true,
    }
}

fn is_made_of(block: &[u8], byte: u8) -> bool {
    !block.is_empty() && block.iter().all(|other| *other == byte)
}

fn are_others_same(case: &Case<'_>, setup: &Setup, image: &Image) -> bool {
    let blocks = setup.image.len() as u64 / image.size.bytes() as u64;
    for b in 0..blocks {
        let is_named = case.wanted.iter().any(|line| line.wanted.names(b));
        let before = block_of(&setup.image, image.size, b);
        if !is_named && before != block_of(&image.bytes, image.size, b) {
            return false;
        }
    }
    true
}
