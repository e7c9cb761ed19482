// A whole disk in one run of bytes, and what an attach of such bytes gives.
ghost use Rattle.std.specs.Prelude.{◌≡◌, ◌*◌, [], IsTrue, length, IfOk, IsErrOf};
ghost use Rattle.host_io.specs.Causes.{Rose};
ghost use Rattle.host_io.specs.Copies.{bytes_of};
ghost use Rattle.host_io.specs.Disks.{OnlyReads};
ghost use Rattle.host_io.specs.Laws.{FreshBytes, FreshIsImage, JoinedIsCut};
ghost use Rattle.host_io.specs.declared.disk.DiskError.TheVariants.{Failed};

use crate::{Disk, DiskError};
use host_block::BlockSize;
use std::alloc::Global;

/// The bytes of all blocks of an attached disk, in order. Their memory is taken in one step, with
/// one block more.
pub fn copy_image<D: Disk>(
    alloc: Global,
    disk: &mut D,
    blocks: u64,
    size: BlockSize,
) -> Result<Vec<u8>, DiskError>
    requires blocks { blocks ≡ (D.shape disk.old).blocks }
    requires size { size ≡ (D.shape disk.old).size }
    ensures fault { IsErrOf result Failed
        → Rose (D.counts disk.old).faults (D.counts disk.new).faults }
    ensures shape { D.shape disk.new ≡ D.shape disk.old }
    ensures state { D.state disk.new ≡ D.state disk.old }
    ensures opening { D.opening disk.new ≡ D.opening disk.old }
    ensures counts { OnlyReads (D.counts disk.old) (D.counts disk.new) (D.never_fails disk.old)
        (D.never_fails disk.new) }
    ensures length { IfOk result (λ all. length all.items ≡ blocks * size) }
    ensures bytes { IsTrue (D.shape disk.old).tells
        → IfOk result (λ all. all.items ≡ bytes_of (D.state disk.old) blocks) }
{
    let width = size.bytes();
    let Some(total) = blocks.checked_mul(width as u64) else {
        return Err(DiskError::Oom);
    };
    let Ok(mut block) = vec![in alloc; 0u8; width as usize] else {
        return Err(DiskError::Oom);
    };
    let Ok(all) = Vec::with_capacity(alloc, total as usize) else {
        return Err(DiskError::Oom);
    };
    read_blocks(disk, blocks, &mut block, all)
}

// Reads all blocks, each by way of this piece, and adds their bytes to `all`.
fn read_blocks<D: Disk>(
    disk: &mut D,
    blocks: u64,
    block: &mut [u8],
    mut all: Vec<u8>,
) -> Result<Vec<u8>, DiskError>
    requires blocks { blocks ≡ (D.shape disk.old).blocks }
    requires piece { length block.old ≡ (D.shape disk.old).size }
    requires empty { all.items ≡ [] }
    ensures fault { IsErrOf result Failed
        → Rose (D.counts disk.old).faults (D.counts disk.new).faults }
    ensures shape { D.shape disk.new ≡ D.shape disk.old }
    ensures state { D.state disk.new ≡ D.state disk.old }
    ensures opening { D.opening disk.new ≡ D.opening disk.old }
    ensures counts { OnlyReads (D.counts disk.old) (D.counts disk.new) (D.never_fails disk.old)
        (D.never_fails disk.new) }
    ensures length { IfOk result (λ all. length all.items ≡ blocks * (D.shape disk.old).size) }
    ensures bytes { IsTrue (D.shape disk.old).tells
        → IfOk result (λ all. all.items ≡ bytes_of (D.state disk.old) blocks) }
{
    for b in 0..blocks {
        disk.read_block(b, block)?;
        if all.extend_from_slice(block).is_err() {
            return Err(DiskError::Oom);
        }
    }
    Ok(all)
}

/// The bytes read from a disk that was just attached are those of its image.
pub fn fresh_bytes()
    ensures { FreshBytes }
{}

/// The blocks that an attach gave are of the disk's size.
pub fn fresh_is_image()
    ensures { FreshIsImage }
{}

/// Blocks of one size that were joined are cut apart into the same blocks.
pub fn joined_is_cut()
    ensures { JoinedIsCut }
{}
