// The copy of an image in memory.
ghost use Rattle.std.specs.Prelude.{◌≡◌, ◌≤◌, IsTrue};
ghost use Rattle.host_block.specs.Disk.{fresh};
ghost use Rattle.host_io.specs.Flat.{image_of};
ghost use Rattle.host_io.specs.MemDisk.{counts_of, never_fails_of, opening_of, shape_of, state_of};

use crate::StartError;
use crate::attach::attach;
use host_block::BlockSize;
use host_io::{Disk, MemDisk, copy_image};
use std::alloc::Global;

/// A disk in memory that never fails, on which nothing was written yet: the image of so many blocks
/// of this size that it was made with is attached.
#[derive(Drop)]
pub struct ImageCopy {
    pub disk: MemDisk,
    pub blocks: u64,
    pub size: BlockSize,
    ghost attached: { IsTrue (shape_of disk).attached },
    ghost counted: { (shape_of disk).blocks ≡ blocks },
    ghost sized: { (shape_of disk).size ≡ size },
    ghost never_fails: { IsTrue (never_fails_of disk) },
    ghost has_not_failed: { (counts_of disk).faults ≡ 0 },
    ghost no_writes: { (counts_of disk).writes ≡ 0 },
    ghost no_syncs: { (counts_of disk).syncs ≡ 0 },
    ghost fresh: { state_of disk ≡ fresh (image_of size (opening_of disk)) },
}

impl ImageCopy {
    ghost use Rattle.std.specs.Prelude.{◌≡◌, ◌≤◌, false, IfOk, IfErr, IsErrOf, IsTrue};
    ghost use Rattle.host_io.specs.Causes.{Rose};
    ghost use Rattle.host_io.specs.Disks.{OnlyReads, OpensNone};
    ghost use Rattle.host_io.specs.Flat.{image_of};
    ghost use Rattle.host_start.specs.Copies.{Copies, HasAttached, image_in};
    ghost use Rattle.host_start.specs.Images.{SaysOfBlocks};
    ghost use Rattle.host_start.specs.Refusals.{IsImageError};
    ghost use Rattle.host_start.specs.declared.error.StartError.TheVariants.{Disk as DiskFails};

    /// A copy of the image of this name, which `disk` attaches to read alone.
    pub(crate) fn of_image<D: Disk>(
        alloc: Global,
        disk: &mut D,
        image: &str,
        size: BlockSize,
    ) -> Result<ImageCopy, StartError>
        ensures cause { IfErr result IsImageError }
        ensures fault { IsErrOf result DiskFails
            → Rose (D.counts disk.old).faults (D.counts disk.new).faults }
        ensures only_reads { OnlyReads (D.counts disk.old) (D.counts disk.new)
            (D.never_fails disk.old) (D.never_fails disk.new) }
        ensures opens_none { OpensNone (D.shape disk.old) (D.shape disk.new) }
        ensures is_attached { HasAttached result → IsTrue (D.shape disk.new).attached }
        ensures read_alone { HasAttached result → (D.shape disk.new).writable ≡ false }
        ensures of_size { HasAttached result → (D.shape disk.new).size ≡ size }
        ensures blocks { IfErr result (SaysOfBlocks (D.shape disk.new).blocks) }
        ensures counted { IfOk result (λ copy. copy.blocks ≡ (D.shape disk.new).blocks) }
        ensures copied { IsTrue (D.shape disk.old).tells
            → Copies (D.image_named disk.old image.now size) result }
        ensures size { IfOk result (λ copy. copy.size ≡ size) }
        ensures few { IfOk result (λ copy. copy.blocks ≤ 262144) }
    {
        // More than none, as each size of blocks.
        let _bytes = size.bytes();
        let blocks = attach(disk, image, size, false)?;
        let bytes = copy_image(alloc, disk, blocks, size)?;
        Ok(ImageCopy::of_bytes(alloc, bytes, size))
    }

    // A disk that holds these bytes, attached.
    fn of_bytes(alloc: Global, bytes: Vec<u8>, size: BlockSize) -> ImageCopy
        ensures image { image_in result ≡ image_of size bytes.items }
        ensures size { result.size ≡ size }
    {
        let mut disk = MemDisk::new(alloc, bytes, Vec::new(alloc));
        match disk.attach_image("", size, true) {
            Ok(blocks) => ImageCopy { disk, blocks, size },
            Err(_) => unreachable!("a disk in memory fails only where it is told to"),
        }
    }
}
