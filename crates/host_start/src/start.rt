// What a run has when its sessions begin.
ghost use Rattle.std.specs.Prelude.{◌≤◌, ◌+◌, All};
ghost use Rattle.host_start.specs.Reading.{IsFit};
ghost use Rattle.script_model.specs.Plans.{plans_of};

use crate::places::find_places;
use crate::{Place, StartError};
use host_block::BlockSize;
use host_gpt::{Which, read_table};
use host_io::Disk;
use host_part::serve;
use script_model::Script;
use std::alloc::Global;

/// A script, and the image that it is to be played on: its blocks, the header of its table, and the
/// partition of each session.
#[derive(Drop)]
pub struct Start {
    pub script: Script,
    pub blocks: u64,
    pub size: BlockSize,
    pub which: Which,
    pub places: Vec<Place>,
    ghost fit: { IsFit size (plans_of script) },
    ghost few_blocks: { blocks ≤ 262144 },
    ghost inside: { All (λ place. place.range.first + place.range.count ≤ blocks) places.items },
}

impl Start {
    ghost use Rattle.std.specs.Prelude.{◌≡◌, ◌≤◌, IfOk, IfErr, IsErrOf, IsTrue};
    ghost use Rattle.host_gpt.specs.Image.{current_image};
    ghost use Rattle.host_io.specs.Causes.{Rose};
    ghost use Rattle.host_io.specs.Disks.{OnlyReads};
    ghost use Rattle.host_start.specs.Images.{IsPlaced, SaysOfTable, parts_of};
    ghost use Rattle.host_start.specs.Reading.{IsFit};
    ghost use Rattle.host_start.specs.Refusals.{IsOfTable};
    ghost use Rattle.host_start.specs.declared.error.StartError.TheVariants.{Disk as DiskFails};
    ghost use Rattle.script_model.specs.Plans.{plans_of};

    /// Reads the table of an attached image of so many blocks, and looks for the partitions of the
    /// sessions.
    pub(crate) fn on<D: Disk>(
        alloc: Global,
        script: Script,
        disk: &mut D,
        blocks: u64,
        size: BlockSize,
    ) -> Result<Start, StartError>
        requires fit { IsFit size (plans_of script) }
        requires few_blocks { blocks ≤ 262144 }
        requires blocks { blocks ≡ (D.shape disk.old).blocks }
        requires size { size ≡ (D.shape disk.old).size }
        ensures cause { IfErr result IsOfTable }
        ensures fault { IsErrOf result DiskFails
            → Rose (D.counts disk.old).faults (D.counts disk.new).faults }
        ensures shape { D.shape disk.new ≡ D.shape disk.old }
        ensures state { D.state disk.new ≡ D.state disk.old }
        ensures opening { D.opening disk.new ≡ D.opening disk.old }
        ensures only_reads { OnlyReads (D.counts disk.old) (D.counts disk.new)
            (D.never_fails disk.old) (D.never_fails disk.new) }
        ensures script { IfOk result (λ start. start.script ≡ script) }
        ensures blocks { IfOk result (λ start. start.blocks ≡ blocks) }
        ensures size { IfOk result (λ start. start.size ≡ size) }
        ensures placed { IfOk result
            (IsPlaced (D.shape disk.old).tells (current_image (D.state disk.old))) }
        ensures refused { IsTrue (D.shape disk.old).tells
            → IfErr result
            (SaysOfTable (current_image (D.state disk.old)) (parts_of (plans_of script))) }
    {
        let table = read_table(alloc, disk, blocks, size)?;
        let parts = serve(alloc, &table, blocks)?;
        match find_places(alloc, &parts, script.sessions.as_slice()) {
            Ok(places) => Ok(Start {
                script,
                blocks,
                size,
                which: table.which,
                places,
            }),
            Err(error) => Err(error),
        }
    }
}
