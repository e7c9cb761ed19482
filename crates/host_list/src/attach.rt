// Attaching an image.
ghost use Rattle.std.specs.Prelude.{◌≡◌, ◌≢◌, ◌≤◌, false, Err, IfErr, IfOk, IsErrOf, IsTrue};
ghost use Rattle.host_io.specs.Causes.{Rose};
ghost use Rattle.host_io.specs.Disks.{Attaches, OnlyReads, OpensNone};
ghost use Rattle.host_list.specs.Answers.{AttachedForList, HasAttachedForList, RefusesBlocks};
ghost use Rattle.host_list.specs.declared.list_error.ListError.TheVariants.{Disk as DiskFails};
ghost use Rattle.host_list.specs.declared.list_error.ListError.TheVariants.{Sink as SinkFails};

use crate::ListError;
use host_block::BlockSize;
use host_io::Disk;

/// The most blocks that an image may have.
const BLOCK_LIMIT: u64 = 262_144;

/// Attaches an image, to read alone, and gives its number of blocks.
pub fn attach<D: Disk>(image: &str, size: BlockSize, disk: &mut D) -> Result<u64, ListError>
    ensures inside { result ≢ Err SinkFails }
    ensures fault { IsErrOf result DiskFails
        → Rose (D.counts disk.old).faults (D.counts disk.new).faults }
    ensures only_reads { OnlyReads (D.counts disk.old) (D.counts disk.new) (D.never_fails disk.old)
        (D.never_fails disk.new) }
    ensures opens_none { OpensNone (D.shape disk.old) (D.shape disk.new) }
    ensures is_attached { HasAttachedForList result → IsTrue (D.shape disk.new).attached }
    ensures read_alone { HasAttachedForList result → (D.shape disk.new).writable ≡ false }
    ensures of_size { HasAttachedForList result → (D.shape disk.new).size ≡ size }
    ensures blocks { IfErr result (RefusesBlocks (D.shape disk.new).blocks) }
    ensures few { IfOk result (λ blocks. blocks ≤ 262144) }
    ensures attaches { Attaches size false (D.image_named disk.old image.now size)
        (D.shape disk.old) (D.shape disk.new) (D.state disk.new) result }
    ensures attached { IsTrue (D.shape disk.old).tells
        → AttachedForList (D.image_named disk.old image.now size) result }
{
    let blocks = disk.attach_image(image, size, false)?;
    if blocks > BLOCK_LIMIT {
        return Err(ListError::TooManyBlocks);
    }
    Ok(blocks)
}
