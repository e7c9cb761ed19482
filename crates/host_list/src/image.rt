// Listing the table of an image.
ghost use Rattle.std.specs.Prelude.{◌≡◌, false, IfErr, IsErrOf, IsTrue};
ghost use Rattle.host_io.specs.Causes.{Rose};
ghost use Rattle.host_io.specs.Disks.{OnlyReads, OpensNone};
ghost use Rattle.host_list.specs.Answers.{Answers, HasAttachedForList, IsListRefused};
ghost use Rattle.host_list.specs.Answers.{RefusesBlocks};
ghost use Rattle.host_list.specs.declared.list_error.ListError.TheVariants.{Disk as DiskFails};
ghost use Rattle.host_list.specs.declared.list_error.ListError.TheVariants.{Sink as SinkFails};

use crate::ListError;
use crate::opened::Opened;
use host_block::BlockSize;
use host_io::{Disk, Sink};
use std::alloc::Global;

/// Attaches the image of this name without writes, and puts the text of its table. What is refused
/// puts nothing.
pub fn list_image<D: Disk, K: Sink>(
    alloc: Global,
    image: &str,
    size: BlockSize,
    disk: &mut D,
    out: &mut K,
) -> Result<(), ListError>
    ensures disk_fault { IsErrOf result DiskFails
        → Rose (D.counts disk.old).faults (D.counts disk.new).faults }
    ensures sink_fault { IsErrOf result SinkFails → Rose (K.faults out.old) (K.faults out.new) }
    ensures only_reads { OnlyReads (D.counts disk.old) (D.counts disk.new) (D.never_fails disk.old)
        (D.never_fails disk.new) }
    ensures opens_none { OpensNone (D.shape disk.old) (D.shape disk.new) }
    ensures is_attached { HasAttachedForList result → IsTrue (D.shape disk.new).attached }
    ensures read_alone { HasAttachedForList result → (D.shape disk.new).writable ≡ false }
    ensures of_size { HasAttachedForList result → (D.shape disk.new).size ≡ size }
    ensures blocks { IfErr result (RefusesBlocks (D.shape disk.new).blocks) }
    ensures tells { K.tells out.new ≡ K.tells out.old }
    ensures untouched { IsListRefused result → out.new ≡ out.old }
    ensures answer { Answers (D.shape disk.old).tells (D.image_named disk.old image.now size)
        (D.shape disk.new).blocks size (K.tells out.old) (K.appended out.old) (K.appended out.new)
        result }
{
    let opened = Opened::open(alloc, image, size, disk)?;
    opened.write(out)
}
