//! The ranges that the table of an image serves.
ghost use Rattle.std.specs.Prelude.{◌≡◌, length};

use host_block::{BlockSize, Range};
use host_gpt::sample::base_image;
use host_gpt::{crc32, read_table};
use host_io::{Disk, MemDisk};
use host_part::{PartError, Parts, serve};
use std::alloc::Global;
use std::test::Fail;

fn parts_on<D: Disk>(alloc: Global, disk: &mut D, size: BlockSize) -> Option<Parts> {
    let blocks = disk.attach_image("any", size, false).ok()?;
    let table = read_table(alloc, disk, blocks, size).ok()?;
    serve(alloc, &table, blocks).ok()
}

fn parts_of(alloc: Global, bytes: Vec<u8>) -> Option<Parts> {
    let mut disk = MemDisk::new(alloc, bytes, Vec::new(alloc));
    parts_on(alloc, &mut disk, BlockSize::new(512)?)
}

// Lets the second entry of the base image begin in block 60, and mends the CRCs of array and
// header.
fn let_overlap(image: &mut [u8])
    requires { length image.old ≡ 65536 }
{
    image[1_184] = 60;
    let array_crc = crc32(&image[1_024..17_408]);
    image[600..604].copy_from_slice(&array_crc.to_le_bytes());
    image[528..532].copy_from_slice(&[0; 4]);
    let crc = crc32(&image[512..604]);
    image[528..532].copy_from_slice(&crc.to_le_bytes());
}

#[test]
fn ranges_of_images(rt: HostRuntime) -> Result<(), Fail> {
    let alloc = rt.alloc();
    let image = base_image(alloc).ok().ok_or("memory")?;
    let whole = image.as_slice().to_vec(alloc)?;
    let mut cut_short = image.as_slice().to_vec(alloc)?;
    cut_short.truncate(40 * 512);
    let mut overlapping = image.as_slice().to_vec(alloc)?;
    assert_eq!(rt; overlapping.len(), 65_536);
    let_overlap(&mut overlapping);
    let alpha = Range {
        first: 34,
        count: 30,
    };
    let beta = Range {
        first: 64,
        count: 31,
    };
    let bad = Err(PartError::BadEntry);
    for (bytes, first, second) in [
        (whole, Ok(alpha), Ok(beta)),
        (cut_short, bad, bad),
        (overlapping, bad, bad),
    ] {
        let parts = parts_of(alloc, bytes).ok_or("table")?;
        assert_eq!(rt; parts.range(1), first);
        assert_eq!(rt; parts.range(2), second);
        assert_eq!(rt; parts.range(3), Err(PartError::Unused));
    }
    Ok(())
}
