//! Whether a report is lawful for an image in one run of bytes.
ghost use Rattle.std.specs.Prelude.{◌≡◌, ◌↔◌, ◌<◌, ◌≤◌, ◌++◌, [], ◌∷◌, IsTrue, length, take, drop};
ghost use Rattle.std.specs.Prelude.{IfOk, OnOk};
ghost use Rattle.host_io.specs.Flat.{image_of};
ghost use Rattle.host_report.specs.Lawful.{IsLawful};
ghost use Rattle.host_check.specs.ImageBytes.{IsTableIn};

use crate::report::is_lawful;
use host_block::{BlockSize, Bytes, Oom};
use host_gpt::{Table, TableError, read_table};
use host_io::{Disk, MemDisk};
use host_report::Report;
use std::alloc::Global;

fn push_block(list: &mut Vec<Bytes>, alloc: Global, block: &[u8]) -> Result<(), Oom>
    ensures { OnOk result (list.new.items ≡ list.old.items ++ block.now ∷ []) }
{
    let block = Bytes::copied(alloc, block)?;
    match list.push(block) {
        Ok(()) => Ok(()),
        Err(_) => Err(Oom),
    }
}

fn first_block(rest: &[u8], width: usize) -> &[u8]
    requires { width ≤ length rest.now }
    ensures { result.now ≡ take width rest.now }
{
    &rest[..width]
}

fn after_block(rest: &[u8], width: usize) -> &[u8]
    requires { width ≤ length rest.now }
    ensures { result.now ≡ drop width rest.now }
{
    &rest[width..]
}

fn cut_blocks(alloc: Global, bytes: &[u8], width: usize) -> Result<Vec<Bytes>, Oom>
    requires { 0 < width }
    ensures { IfOk result (λ v. v.items ≡ image_of width bytes.now) }
{
    let mut list = Vec::new(alloc);
    let mut rest = bytes;
    while rest.len() >= width {
        push_block(&mut list, alloc, first_block(rest, width))?;
        rest = after_block(rest, width);
    }
    Ok(list)
}

/// The whole blocks of this size.
pub fn blocks_of(alloc: Global, bytes: &[u8], size: BlockSize) -> Result<Vec<Bytes>, Oom>
    ensures { IfOk result (λ v. v.items ≡ image_of size bytes.now) }
{
    cut_blocks(alloc, bytes, size.bytes() as usize)
}

// The table of the image, if it has one.
fn table_of(alloc: Global, bytes: &[u8], size: BlockSize) -> Result<Option<Table>, Oom>
    ensures { IfOk result (IsTableIn (image_of size bytes.now)) }
{
    let Ok(copy) = bytes.to_vec(alloc) else {
        return Err(Oom);
    };
    let mut disk = MemDisk::new(alloc, copy, Vec::new(alloc));
    let Ok(blocks) = disk.attach_image("", size, false) else {
        return Err(Oom);
    };
    match read_table(alloc, &mut disk, blocks, size) {
        Ok(table) => Ok(Some(table)),
        Err(TableError::NoTable) => Ok(None),
        Err(TableError::TooLarge) => Ok(None),
        // A disk in memory without a list of failing calls doesn't fail.
        Err(TableError::Disk) => Err(Oom),
        Err(TableError::Oom) => Err(Oom),
    }
}

/// Whether the report is lawful for the image that these bytes are, cut in blocks of the report's
/// size.
pub fn is_lawful_image(alloc: Global, bytes: &[u8], report: &Report) -> Result<bool, Oom>
    ensures { IfOk result
        (λ b. IsTrue b ↔ IsLawful (image_of report.now.size bytes.now) report.now) }
{
    let image = blocks_of(alloc, bytes, report.size)?;
    match table_of(alloc, bytes, report.size)? {
        Some(table) => is_lawful(alloc, &image, &table, report),
        None => Ok(false),
    }
}
