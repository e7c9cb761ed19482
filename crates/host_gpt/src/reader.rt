// The table of an image, read from a disk.
ghost use Rattle.std.specs.Prelude.{◌≡◌, ◌↔◌, ◌≤◌, IsTrue, IsErrOf, IfOk};
ghost use Rattle.host_io.specs.Causes.{Rose};
ghost use Rattle.host_io.specs.Disks.{OnlyReads};
ghost use Rattle.host_gpt.specs.Entries.{AreUsed};
ghost use Rattle.host_gpt.specs.Image.{current_image};
ghost use Rattle.host_gpt.specs.Reads.{Tells};
ghost use Rattle.host_gpt.specs.Table.{IsTooLarge, IsValid};

use crate::found::{Found, find_at};
use crate::{Table, TableError, Which};
use host_block::BlockSize;
use host_io::Disk;
use std::alloc::Global;

/// Reads the partition table (UEFI 2.10, section 5.3) of the attached image, which has so many
/// blocks of this size. A failure of the disk comes before every other error.
pub fn read_table<D: Disk>(
    alloc: Global,
    disk: &mut D,
    blocks: u64,
    size: BlockSize,
) -> Result<Table, TableError>
    requires blocks { blocks ≡ (D.shape disk.old).blocks }
    requires size { size ≡ (D.shape disk.old).size }

    // The image's table, or why there is none, where the disk tells its content.
    ensures table { IsTrue (D.shape disk.old).tells
        → Tells (current_image (D.state disk.old)) result }
    ensures entries { IfOk result (λ table. AreUsed table.entries.items) }
    ensures fault { IsErrOf result TableError.Disk
        → Rose (D.counts disk.old).faults (D.counts disk.new).faults }

    // The disk was only read.
    ensures shape { D.shape disk.new ≡ D.shape disk.old }
    ensures state { D.state disk.new ≡ D.state disk.old }
    ensures opening { D.opening disk.new ≡ D.opening disk.old }
    ensures counts { OnlyReads (D.counts disk.old) (D.counts disk.new) (D.never_fails disk.old)
        (D.never_fails disk.new) }
{
    if blocks < 2 {
        return Err(TableError::NoTable);
    }
    match find_at(alloc, disk, blocks, size, Which::Primary, 1)? {
        Found::Valid(table) => Ok(table),
        Found::Large => read_backup(alloc, disk, blocks, size, true),
        Found::Neither => read_backup(alloc, disk, blocks, size, false),
    }
}

// Reads the table of the backup header, where the primary one isn't valid, and may be too large.
fn read_backup<D: Disk>(
    alloc: Global,
    disk: &mut D,
    blocks: u64,
    size: BlockSize,
    primary_is_large: bool,
) -> Result<Table, TableError>
    requires blocks { blocks ≡ (D.shape disk.old).blocks }
    requires size { size ≡ (D.shape disk.old).size }
    requires two { 2 ≤ blocks }
    ensures table { IsTrue (D.shape disk.old).tells
        → (¬ IsValid (current_image (D.state disk.old)) 1)
        → (IsTrue primary_is_large ↔ IsTooLarge (current_image (D.state disk.old)) 1)
        → Tells (current_image (D.state disk.old)) result }
    ensures entries { IfOk result (λ table. AreUsed table.entries.items) }
    ensures fault { IsErrOf result TableError.Disk
        → Rose (D.counts disk.old).faults (D.counts disk.new).faults }
    ensures shape { D.shape disk.new ≡ D.shape disk.old }
    ensures state { D.state disk.new ≡ D.state disk.old }
    ensures opening { D.opening disk.new ≡ D.opening disk.old }
    ensures counts { OnlyReads (D.counts disk.old) (D.counts disk.new) (D.never_fails disk.old)
        (D.never_fails disk.new) }
{
    match find_at(alloc, disk, blocks, size, Which::Backup, blocks - 1)? {
        Found::Valid(table) => Ok(table),
        Found::Large => Err(TableError::TooLarge),
        Found::Neither => {
            if primary_is_large {
                Err(TableError::TooLarge)
            } else {
                Err(TableError::NoTable)
            }
        }
    }
}
