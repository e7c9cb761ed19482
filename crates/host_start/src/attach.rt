// Attaching an image.
ghost use Rattle.std.specs.Prelude.{◌≡◌, ◌≤◌, IsErrOf, IsTrue, IfOk, IfErr};
ghost use Rattle.host_io.specs.Causes.{Rose};
ghost use Rattle.host_io.specs.Disks.{Attaches, OnlyReads};
ghost use Rattle.host_start.specs.Copies.{HasAttached};
ghost use Rattle.host_start.specs.Images.{Attached, SaysOfBlocks};
ghost use Rattle.host_start.specs.Refusals.{IsImageError};
ghost use Rattle.host_start.specs.declared.error.StartError.TheVariants.{Disk as DiskFails};

use crate::{Limit, StartError};
use host_block::BlockSize;
use host_io::Disk;

/// The most blocks that an image may have.
const BLOCK_LIMIT: u64 = 262_144;

/// Attaches an image, to be written or to be read alone, and gives its number of blocks.
pub fn attach<D: Disk>(
    disk: &mut D,
    image: &str,
    size: BlockSize,
    writes: bool,
) -> Result<u64, StartError>
    ensures cause { IfErr result IsImageError }
    ensures fault { IsErrOf result DiskFails
        → Rose (D.counts disk.old).faults (D.counts disk.new).faults }
    ensures only_reads { OnlyReads (D.counts disk.old) (D.counts disk.new) (D.never_fails disk.old)
        (D.never_fails disk.new) }
    ensures opening { D.opening disk.new ≡ D.opening disk.old }
    ensures attaches { Attaches size writes (D.image_named disk.old image.now size)
        (D.shape disk.old) (D.shape disk.new) (D.state disk.new) result }
    ensures attached { IsTrue (D.shape disk.old).tells
        → Attached (D.image_named disk.old image.now size) result }

    // How it is attached, and that the disk has too many blocks where that is the cause: known of
    // every disk.
    ensures is_attached { HasAttached result → IsTrue (D.shape disk.new).attached }
    ensures as_asked { HasAttached result → (D.shape disk.new).writable ≡ writes }
    ensures of_size { HasAttached result → (D.shape disk.new).size ≡ size }
    ensures blocks { IfErr result (SaysOfBlocks (D.shape disk.new).blocks) }
    ensures few { IfOk result (λ blocks. blocks ≤ 262144) }
{
    let blocks = disk.attach_image(image, size, writes)?;
    if blocks > BLOCK_LIMIT {
        return Err(StartError::TooLarge {
            what: Limit::Blocks,
        });
    }
    Ok(blocks)
}
