// The table of an image that was attached.
ghost use Rattle.std.specs.Prelude.{◌≡◌};
ghost use Rattle.host_gpt.specs.Entries.{AreUsed};
ghost use Rattle.host_part.specs.Served.{layout_of};

use crate::attach::attach;
use crate::{ListError, write_list};
use host_block::BlockSize;
use host_gpt::{Table, read_table};
use host_io::{Disk, Sink};
use host_part::{Parts, serve};
use std::alloc::Global;

/// The table of an image with so many blocks, and what it serves there.
#[derive(Drop)]
pub struct Opened {
    pub blocks: u64,
    pub size: BlockSize,
    pub table: Table,
    pub parts: Parts,
    ghost served: { parts ≡ layout_of table blocks },
    ghost used: { AreUsed table.entries.items },
}

impl Opened {
    ghost use Rattle.std.specs.Prelude.{◌≡◌, ◌≢◌, ◌⊎◌, false, Err, IfErr, IfOk, IsErrOf, IsOk};
    ghost use Rattle.std.specs.Prelude.{IsTrue};
    ghost use Rattle.host_io.specs.Causes.{Rose};
    ghost use Rattle.host_io.specs.Disks.{OnlyReads, OpensNone};
    ghost use Rattle.host_list.specs.Answers.{HasAttachedForList, OpensForList, RefusesBlocks};
    ghost use Rattle.host_list.specs.Text.{list_text};
    ghost use Rattle.host_list.specs.declared.list_error.ListError.TheVariants.{Disk as DiskFails};
    ghost use Rattle.host_list.specs.declared.list_error.ListError.TheVariants.{Sink as SinkFails};
    ghost use Rattle.host_text.specs.Writing.{Writes};

    /// Attaches an image, to read alone, and reads its table.
    pub fn open<D: Disk>(
        alloc: Global,
        image: &str,
        size: BlockSize,
        disk: &mut D,
    ) -> Result<Opened, ListError>
        ensures inside { result ≢ Err SinkFails }
        ensures fault { IsErrOf result DiskFails
            → Rose (D.counts disk.old).faults (D.counts disk.new).faults }
        ensures only_reads { OnlyReads (D.counts disk.old) (D.counts disk.new)
            (D.never_fails disk.old) (D.never_fails disk.new) }
        ensures opens_none { OpensNone (D.shape disk.old) (D.shape disk.new) }
        ensures is_attached { HasAttachedForList result → IsTrue (D.shape disk.new).attached }
        ensures read_alone { HasAttachedForList result → (D.shape disk.new).writable ≡ false }
        ensures of_size { HasAttachedForList result → (D.shape disk.new).size ≡ size }
        ensures blocks { IfErr result (RefusesBlocks (D.shape disk.new).blocks) }
        ensures own_blocks { IfOk result (λ opened. opened.blocks ≡ (D.shape disk.new).blocks) }
        ensures size { IfOk result (λ opened. opened.size ≡ size) }
        ensures opens { IsTrue (D.shape disk.old).tells
            → OpensForList (D.image_named disk.old image.now size) result }
    {
        let blocks = attach(image, size, disk)?;
        let table = read_table(alloc, disk, blocks, size)?;
        let parts = serve(alloc, &table, blocks)?;
        Ok(Opened {
            blocks,
            size,
            table,
            parts,
        })
    }

    /// Puts the text of the table.
    pub fn write<K: Sink>(&self, out: &mut K) -> Result<(), ListError>
        ensures fault { IsErrOf result SinkFails → Rose (K.faults out.old) (K.faults out.new) }
        ensures alone { IsErrOf result SinkFails ⊎ IsOk result }
        ensures tells { K.tells out.new ≡ K.tells out.old }
        ensures text { Writes (K.tells out.old) (K.appended out.old) (K.appended out.new)
            (list_text self.now.blocks self.now.size self.now.table) result }
    {
        match write_list(self.blocks, self.size, &self.table, &self.parts, out) {
            Ok(()) => Ok(()),
            Err(_) => Err(ListError::Sink),
        }
    }
}
