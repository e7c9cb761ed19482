//! Sample images, for tests and trials: blocks of 512 bytes, a table with 128 entries of 128 bytes
//! at both ends, and usable blocks from block 34 on.
ghost use Rattle.std.specs.Prelude.{◌≡◌, ◌^◌, ◌<◌, ◌≤◌, ◌++◌, length, IfOk, OnOk};
ghost use Rattle.byteorder.specs.Endian.{little_bytes};
ghost use Rattle.host_gpt.specs.Sample.{base_bytes, byte_of, filled, header_array, header_block};
ghost use Rattle.host_gpt.specs.Sample.{header_blocks, header_start, header_with, image_with};
ghost use Rattle.host_gpt.specs.Sample.{large_bytes, sample_entry, usable_blocks, wide};

use crate::crc::crc32;
use host_block::{Bytes, Oom};
use std::alloc::{AllocError, Global};

const FIRST_USABLE: u32 = 34;

/// The type of every partition here, "Linux filesystem data".
const TYPE_ID: [u8; 16] = [
    0xaf, 0x3d, 0xc6, 0x0f, 0x83, 0x84, 0x72, 0x47, 0x8e, 0x79, 0x3d, 0x69, 0xd8, 0x47, 0x7d, 0xe4,
];

const DISK_ID: [u8; 16] = [
    0x33, 0x22, 0x11, 0x00, 0x55, 0x44, 0x77, 0x66, 0x88, 0x99, 0xaa, 0xbb, 0xcc, 0xdd, 0xee, 0xff,
];

// A header, and where it says that everything stands.
#[derive(Clone, Copy)]
struct Place {
    header: u64,
    other: u64,
    array: u64,
    last_usable: u64,
    array_crc: u32,
}

// What the usable blocks are filled with: zeros, or the number of the block.
#[derive(Clone, Copy)]
enum Fill {
    Zero,
    Number,
}

/// 128 blocks with the partitions `alpha`, blocks 34 to 63, and `beta`, blocks 64 to 94. Every byte
/// of a usable block is the block's number.
pub fn base_image(alloc: Global) -> Result<Bytes, Oom>
    ensures { IfOk result (λ image. image ≡ base_bytes) }
{
    match base_content(alloc) {
        Ok(image) => Bytes::copied(alloc, &image),
        Err(_) => Err(Oom),
    }
}

/// 131,072 blocks with the partition `root`, blocks 2,048 to 131,038. The usable blocks are zero.
pub fn large_image(alloc: Global) -> Result<Bytes, Oom>
    ensures { IfOk result (λ image. image ≡ large_bytes) }
{
    match large_content(alloc) {
        Ok(image) => Bytes::copied(alloc, &image),
        Err(_) => Err(Oom),
    }
}

fn base_content(alloc: Global) -> Result<Vec<u8>, AllocError>
    ensures { IfOk result (λ image. image.items ≡ base_bytes) }
{
    let mut array = Vec::new(alloc);
    put_entry(&mut array, 0x11, 34, 63, b"alpha")?;
    put_entry(&mut array, 0x22, 64, 94, b"beta")?;
    put_filled(&mut array, 16_128, 0)?;
    image(alloc, 127, Fill::Number, &array)
}

fn large_content(alloc: Global) -> Result<Vec<u8>, AllocError>
    ensures { IfOk result (λ image. image.items ≡ large_bytes) }
{
    let mut array = Vec::new(alloc);
    put_entry(&mut array, 0x11, 2_048, 131_038, b"root")?;
    put_filled(&mut array, 16_256, 0)?;
    image(alloc, 131_071, Fill::Zero, &array)
}

// An image whose last block is this one, with this entry array at both ends.
#[tactic(auto, unfolding(crate::specs::Sample::image_with))]
fn image(alloc: Global, last: u32, fill: Fill, array: &[u8]) -> Result<Vec<u8>, AllocError>
    requires low { 66 ≤ last }
    requires high { last < 2 ^ 31 }
    ensures { IfOk result (λ image. image.items ≡ image_with last fill array.now) }
{
    let array_crc = crc32(array);
    let last_usable = last - 33;
    let primary = Place {
        header: 1,
        other: last as u64,
        array: 2,
        last_usable: last_usable as u64,
        array_crc,
    };
    let backup = Place {
        header: last as u64,
        other: 1,
        array: last as u64 - 32,
        last_usable: last_usable as u64,
        array_crc,
    };
    let mut image = Vec::with_capacity(alloc, (last as usize + 1) * 512)?;
    put_filled(&mut image, 512, 0)?;
    put_header(alloc, &mut image, &primary)?;
    image.extend_from_slice(array)?;
    put_usable(&mut image, last - 66, fill)?;
    image.extend_from_slice(array)?;
    put_header(alloc, &mut image, &backup)?;
    Ok(image)
}

// Adds the first usable blocks, of which there are so many.
fn put_usable(image: &mut Vec<u8>, count: u32, fill: Fill) -> Result<(), AllocError>
    requires { count < 2 ^ 31 }
    ensures { OnOk result (image.new.items ≡ image.old.items ++ usable_blocks fill 34 count) }
{
    for i in 0..count {
        put_filled(image, 512, fill.byte(FIRST_USABLE + i))?;
    }
    Ok(())
}

impl Fill {
    // The byte that fills this block.
    fn byte(self, block: u32) -> u8
        ensures { result ≡ byte_of self block }
    {
        match self {
            Fill::Zero => 0,
            Fill::Number => (block % 256) as u8,
        }
    }
}

// Adds the block of a header.
fn put_header(alloc: Global, image: &mut Vec<u8>, place: &Place) -> Result<(), AllocError>
    ensures { OnOk result (image.new.items ≡ image.old.items ++ header_block place.now) }
{
    let mut unsealed = Vec::new(alloc);
    put_fields(&mut unsealed, place, 0)?;
    let crc = crc32(&unsealed);
    put_fields(image, place, crc)?;
    put_filled(image, 420, 0)?;
    Ok(())
}

// Adds the fields of a header with this CRC.
#[tactic(auto, unfolding(crate::specs::Sample::header_with))]
fn put_fields(out: &mut Vec<u8>, place: &Place, crc: u32) -> Result<(), AllocError>
    ensures { OnOk result (out.new.items ≡ out.old.items ++ header_with crc place.now) }
{
    put_start(out, crc)?;
    put_blocks(out, place)?;
    put_array(out, place)?;
    Ok(())
}

// Adds the signature, revision, size, CRC and reserved bytes of a header.
#[tactic(auto, unfolding(crate::specs::Sample::header_start))]
fn put_start(out: &mut Vec<u8>, crc: u32) -> Result<(), AllocError>
    ensures { OnOk result (out.new.items ≡ out.old.items ++ header_start crc) }
{
    out.extend_from_slice(b"EFI PART")?;
    put_u32(out, 0x0001_0000)?;
    put_u32(out, 92)?;
    put_u32(out, crc)?;
    put_u32(out, 0)?;
    Ok(())
}

// Adds where the two headers stand, and the usable blocks.
#[tactic(auto, unfolding(crate::specs::Sample::header_blocks))]
fn put_blocks(out: &mut Vec<u8>, place: &Place) -> Result<(), AllocError>
    ensures { OnOk result (out.new.items ≡ out.old.items ++ header_blocks place.now) }
{
    put_u64(out, place.header)?;
    put_u64(out, place.other)?;
    put_u64(out, FIRST_USABLE as u64)?;
    put_u64(out, place.last_usable)?;
    Ok(())
}

// Adds the id of the disk, and where the array stands, its entries and its CRC.
#[tactic(auto, unfolding(crate::specs::Sample::header_array))]
fn put_array(out: &mut Vec<u8>, place: &Place) -> Result<(), AllocError>
    ensures { OnOk result (out.new.items ≡ out.old.items ++ header_array place.now) }
{
    out.extend_from_slice(&DISK_ID)?;
    put_u64(out, place.array)?;
    put_u32(out, 128)?;
    put_u32(out, 128)?;
    put_u32(out, place.array_crc)?;
    Ok(())
}

// Adds an entry whose GUID has the same byte 16 times.
#[tactic(auto, unfolding(crate::specs::Sample::sample_entry))]
fn put_entry(
    out: &mut Vec<u8>,
    id: u8,
    first: u64,
    last: u64,
    name: &[u8],
) -> Result<(), AllocError>
    requires { length name.now ≤ 36 }
    ensures { OnOk result (out.new.items ≡ out.old.items ++ sample_entry id first last name.now) }
{
    out.extend_from_slice(&TYPE_ID)?;
    put_filled(out, 16, id)?;
    put_u64(out, first)?;
    put_u64(out, last)?;
    put_filled(out, 8, 0)?;
    put_name(out, name)?;
    put_filled(out, 72 - 2 * name.len(), 0)?;
    Ok(())
}

// Adds a name in ASCII as units of UTF-16.
fn put_name(out: &mut Vec<u8>, name: &[u8]) -> Result<(), AllocError>
    ensures { OnOk result (out.new.items ≡ out.old.items ++ wide name.now) }
{
    for letter in name {
        out.extend_from_slice(&[*letter, 0])?;
    }
    Ok(())
}

// Adds n times the same byte.
fn put_filled(out: &mut Vec<u8>, n: usize, byte: u8) -> Result<(), AllocError>
    ensures { OnOk result (out.new.items ≡ out.old.items ++ filled n byte) }
{
    for _ in 0..n {
        out.push(byte)?;
    }
    Ok(())
}

fn put_u32(out: &mut Vec<u8>, number: u32) -> Result<(), AllocError>
    ensures { OnOk result (out.new.items ≡ out.old.items ++ little_bytes 4 number) }
{
    out.extend_from_slice(&number.to_le_bytes())
}

fn put_u64(out: &mut Vec<u8>, number: u64) -> Result<(), AllocError>
    ensures { OnOk result (out.new.items ≡ out.old.items ++ little_bytes 8 number) }
{
    out.extend_from_slice(&number.to_le_bytes())
}
