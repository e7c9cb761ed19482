//! The image of a case.

use crate::entry::Entry;
use crate::wrong::Wrong;
use host_gpt::{Which, crc32, sample};
use std::alloc::Global;

/// The bytes of a block, in a recipe.
pub const BLOCK: u64 = 512;

/// What a line makes of the image.
#[derive(Drop)]
pub enum ImageLine {
    Base,
    Large,
    Zeros { count: u64 },
    Set { block: u64, count: u64, byte: u8 },
    Put { block: u64, at: u64, bytes: Vec<u8> },
    MendArray { which: Which },
    MendHeader { which: Which },
    Cut { count: u64 },
    Lengthen { count: u64 },
}

/// What a line says of the image, if it does.
pub fn read_image(alloc: Global, entry: &Entry<'_>) -> Result<Option<ImageLine>, Wrong> {
    Ok(Some(match entry.word(0) {
        "image" => read_start(entry)?,
        "set" => {
            entry.has_count(4)?;
            ImageLine::Set {
                block: entry.number(1)?,
                count: entry.number(2)?,
                byte: entry.byte(3)?,
            }
        }
        "bytes" => {
            entry.has_count(4)?;
            ImageLine::Put {
                block: entry.number(1)?,
                at: entry.number(2)?,
                bytes: entry.bytes(alloc, 3)?,
            }
        }
        "array" => ImageLine::MendArray {
            which: read_which(entry)?,
        },
        "header" => ImageLine::MendHeader {
            which: read_which(entry)?,
        },
        _ => return read_length(entry),
    }))
}

fn read_length(entry: &Entry<'_>) -> Result<Option<ImageLine>, Wrong> {
    match entry.word(0) {
        "cut" => Ok(Some(ImageLine::Cut {
            count: entry.number(1)?,
        })),
        "lengthen" => Ok(Some(ImageLine::Lengthen {
            count: entry.number(1)?,
        })),
        _ => Ok(None),
    }
}

fn read_start(entry: &Entry<'_>) -> Result<ImageLine, Wrong> {
    match entry.word(1) {
        "base" => Ok(ImageLine::Base),
        "large" => Ok(ImageLine::Large),
        "zeros" => Ok(ImageLine::Zeros {
            count: entry.number(2)?,
        }),
        _ => Err(entry.wrong("no image")),
    }
}

fn read_which(entry: &Entry<'_>) -> Result<Which, Wrong> {
    match entry.word(1) {
        "primary" => Ok(Which::Primary),
        "backup" => Ok(Which::Backup),
        _ => Err(entry.wrong("neither primary nor backup")),
    }
}

/// The image that these lines make.
pub fn image_of(alloc: Global, lines: &[ImageLine]) -> Result<Vec<u8>, Wrong> {
    let mut image = sample::base_image(alloc)?.as_slice().to_vec(alloc)?;
    for line in lines {
        change(alloc, &mut image, line)?;
    }
    Ok(image)
}

fn change(alloc: Global, image: &mut Vec<u8>, line: &ImageLine) -> Result<(), Wrong> {
    match line {
        ImageLine::Base => *image = sample::base_image(alloc)?.as_slice().to_vec(alloc)?,
        ImageLine::Large => *image = sample::large_image(alloc)?.as_slice().to_vec(alloc)?,
        ImageLine::Zeros { count } => {
            image.clear();
            lengthen(image, *count)?;
        }
        ImageLine::Set { block, count, byte } => {
            let (start, length) = (bytes_in(*block)?, bytes_in(*count)?);
            fill(image, start, length, *byte)?;
        }
        ImageLine::Put { block, at, bytes } => {
            let start = sum(bytes_in(*block)?, *at)?;
            put(image, start, bytes)?;
        }
        ImageLine::MendArray { which } => mend_array(image, *which)?,
        ImageLine::MendHeader { which } => mend_header(image, *which)?,
        ImageLine::Cut { count } => image.truncate(*count as usize),
        ImageLine::Lengthen { count } => lengthen(image, *count)?,
    }
    Ok(())
}

fn outside() -> Wrong {
    Wrong::Play {
        what: "a line of the image goes beyond its end",
    }
}

fn bytes_in(blocks: u64) -> Result<u64, Wrong> {
    blocks.checked_mul(BLOCK).ok_or(outside())
}

fn sum(a: u64, b: u64) -> Result<u64, Wrong> {
    a.checked_add(b).ok_or(outside())
}

fn lengthen(image: &mut Vec<u8>, count: u64) -> Result<(), Wrong> {
    for _ in 0..count {
        image.push(0)?;
    }
    Ok(())
}

fn fill(image: &mut [u8], start: u64, length: u64, byte: u8) -> Result<(), Wrong> {
    let end = sum(start, length)?;
    match image.get_mut(start as usize..end as usize) {
        Some(piece) => {
            piece.fill(byte);
            Ok(())
        }
        None => Err(outside()),
    }
}

fn put(image: &mut [u8], start: u64, bytes: &[u8]) -> Result<(), Wrong> {
    let end = sum(start, bytes.len() as u64)?;
    let Some(piece) = image.get_mut(start as usize..end as usize) else {
        return Err(outside());
    };
    if piece.len() != bytes.len() {
        return Err(outside());
    }
    piece.copy_from_slice(bytes);
    Ok(())
}

fn get(image: &[u8], start: u64, length: u64) -> Result<&[u8], Wrong> {
    let end = sum(start, length)?;
    image.get(start as usize..end as usize).ok_or(outside())
}

fn u32_at(image: &[u8], start: u64) -> Result<u32, Wrong> {
    match <[u8; 4]>::try_from(get(image, start, 4)?) {
        Ok(bytes) => Ok(u32::from_le_bytes(bytes)),
        Err(_) => Err(outside()),
    }
}

fn u64_at(image: &[u8], start: u64) -> Result<u64, Wrong> {
    match <[u8; 8]>::try_from(get(image, start, 8)?) {
        Ok(bytes) => Ok(u64::from_le_bytes(bytes)),
        Err(_) => Err(outside()),
    }
}

// Where a header stands.
fn header_start(image: &[u8], which: Which) -> u64 {
    match which {
        Which::Primary => BLOCK,
        Which::Backup => (image.len() as u64 / BLOCK).saturating_sub(1) * BLOCK,
    }
}

// Makes the CRC of a header right, over as many bytes as its size says.
fn mend_header(image: &mut [u8], which: Which) -> Result<(), Wrong> {
    let start = header_start(image, which);
    let size = u32_at(image, sum(start, 12)?)?;
    put(image, sum(start, 16)?, &[0; 4])?;
    let crc = crc32(get(image, start, size as u64)?);
    put(image, sum(start, 16)?, &crc.to_le_bytes())
}

// Makes the CRC of a header's array right, and the header's own.
fn mend_array(image: &mut [u8], which: Which) -> Result<(), Wrong> {
    let start = header_start(image, which);
    let first = bytes_in(u64_at(image, sum(start, 72)?)?)?;
    let count = u32_at(image, sum(start, 80)?)?;
    let size = u32_at(image, sum(start, 84)?)?;
    let crc = crc32(get(image, first, count as u64 * size as u64)?);
    put(image, sum(start, 88)?, &crc.to_le_bytes())?;
    mend_header(image, which)
}
