// From a script and a disk to what a run needs.
ghost use Rattle.std.specs.Prelude.{◌≡◌, ◌↔◌, ◌≤◌, IfOk, IfErr, IfSome, OnOk, IsErrOf, IsSome};
ghost use Rattle.std.specs.Prelude.{IsTrue, false, length, true};
ghost use Rattle.host_block.specs.Disk.{fresh};
ghost use Rattle.host_io.specs.Causes.{Rose};
ghost use Rattle.host_io.specs.Disks.{OnlyReads, OpensNone};
ghost use Rattle.host_start.specs.Copies.{HasAttached, HasStarted, image_in};
ghost use Rattle.host_start.specs.Images.{IsAttached, IsDiskOpened, IsPlaced, SaysOfBlocks};
ghost use Rattle.host_start.specs.Images.{SaysOfImage, parts_of};
ghost use Rattle.host_start.specs.Reading.{IsFit};
ghost use Rattle.host_start.specs.Refusals.{IsAfterScript, IsOfContent, IsOfTable};
ghost use Rattle.host_start.specs.declared.error.StartError.TheVariants.{Disk as DiskFails};
ghost use Rattle.script_model.specs.Plans.{plans_of};

use crate::attach::attach;
use crate::{ImageCopy, Start, StartError};
use host_block::BlockSize;
use host_io::Disk;
use script_model::Script;
use std::alloc::Global;

/// A start on a copy of an image.
#[derive(Drop)]
pub struct ReadyCopy {
    pub start: Start,
    pub copy: ImageCopy,
}

/// Why there is no start on a copy, and the copy that it was found on.
#[derive(Drop)]
pub struct NotReady {
    pub error: StartError,
    pub copy: Option<ImageCopy>,
}

/// Attaches an image to be written, and looks for the partitions of the sessions in its table.
pub fn start_on_disk<D: Disk>(
    alloc: Global,
    script: Script,
    disk: &mut D,
    image: &str,
    size: BlockSize,
) -> Result<Start, StartError>
    requires fit { IsFit size (plans_of script) }
    ensures cause { IfErr result IsAfterScript }
    ensures fault { IsErrOf result DiskFails
        → Rose (D.counts disk.old).faults (D.counts disk.new).faults }
    ensures only_reads { OnlyReads (D.counts disk.old) (D.counts disk.new) (D.never_fails disk.old)
        (D.never_fails disk.new) }
    ensures script { IfOk result (λ start. start.script ≡ script) }
    ensures size { IfOk result (λ start. start.size ≡ size) }

    // The disk is attached, to be written, and holds the image as it was handed in, where it tells.
    ensures shape { IfOk result
        (λ start. IsAttached start.blocks size (D.shape disk.old).tells (D.shape disk.new)) }
    ensures state { IsTrue (D.shape disk.old).tells
        → OnOk result (D.state disk.new ≡ fresh (D.image_named disk.old image.now size)) }
    ensures opening { D.opening disk.new ≡ D.opening disk.old }
    ensures opened { HasAttached result → IsDiskOpened size true (D.shape disk.new) }

    // The start is on that image, or the refusal says its cause. Of the number of blocks it does
    // whether or not the disk tells.
    ensures placed { IfOk result
        (IsPlaced (D.shape disk.old).tells (D.image_named disk.old image.now size)) }
    ensures refused { IsTrue (D.shape disk.old).tells
        → IfErr result
        (SaysOfImage (D.image_named disk.old image.now size) (parts_of (plans_of script))) }
    ensures refused_blocks { IfErr result (SaysOfBlocks (D.shape disk.new).blocks) }
{
    match attach(disk, image, size, true) {
        Ok(blocks) => Start::on(alloc, script, disk, blocks, size),
        Err(error) => Err(error),
    }
}

/// Copies an image, which is attached to be read alone, and looks for the partitions of the
/// sessions in the copy's table.
pub fn start_on_copy<D: Disk>(
    alloc: Global,
    script: Script,
    disk: &mut D,
    image: &str,
    size: BlockSize,
) -> Result<ReadyCopy, NotReady>
    requires fit { IsFit size (plans_of script) }
    ensures cause { IfErr result (λ no. IsAfterScript no.error) }
    ensures fault { IfErr result (λ no.
        no.error ≡ DiskFails → Rose (D.counts disk.old).faults (D.counts disk.new).faults) }
    ensures only_reads { OnlyReads (D.counts disk.old) (D.counts disk.new) (D.never_fails disk.old)
        (D.never_fails disk.new) }
    ensures opens_none { OpensNone (D.shape disk.old) (D.shape disk.new) }
    ensures read_alone { HasStarted result → IsDiskOpened size false (D.shape disk.new) }
    ensures script { IfOk result (λ ready. ready.start.script ≡ script) }
    ensures size { IfOk result (λ ready. ready.start.size ≡ size) }

    // The start is on the copy, which has as many blocks as the disk, and those of the image where
    // that tells.
    ensures blocks { IfOk result (λ ready. ready.start.blocks ≡ ready.copy.blocks) }
    ensures disk_blocks { IfOk result (λ ready. ready.start.blocks ≡ (D.shape disk.new).blocks) }
    ensures copy_size { IfOk result (λ ready. ready.copy.size ≡ size) }
    ensures placed { IfOk result (λ ready. IsPlaced true (image_in ready.copy) ready.start) }
    ensures copied { IsTrue (D.shape disk.old).tells
        → IfOk result (λ ready. image_in ready.copy ≡ D.image_named disk.old image.now size) }

    // A refusal says its cause, with the copy where its content is the cause.
    ensures refused { IsTrue (D.shape disk.old).tells
        → IfErr result (λ no.
        SaysOfImage (D.image_named disk.old image.now size) (parts_of (plans_of script))
        no.error) }
    ensures found_on { IfErr result (λ no.
        IfSome no.copy
        (λ copy. SaysOfImage (image_in copy) (parts_of (plans_of script)) no.error)) }
    ensures found { IsTrue (D.shape disk.old).tells
        → IfErr result
        (λ no. IfSome no.copy (λ copy. image_in copy ≡ D.image_named disk.old image.now size)) }
    ensures found_size { IfErr result (λ no. IfSome no.copy (λ copy. copy.size ≡ size)) }
    ensures found_blocks { IfErr result
        (λ no. IfSome no.copy (λ copy. length (image_in copy) ≡ (D.shape disk.new).blocks)) }
    ensures refused_blocks { IfErr result (λ no. SaysOfBlocks (D.shape disk.new).blocks no.error) }
    ensures handed { IfErr result (λ no. IsSome no.copy ↔ IsOfContent no.error) }
{
    match ImageCopy::of_image(alloc, disk, image, size) {
        Ok(copy) => start_on(alloc, script, copy),
        Err(error) => Err(NotReady { error, copy: None }),
    }
}

// The start on a copy.
fn start_on(alloc: Global, script: Script, copy: ImageCopy) -> Result<ReadyCopy, NotReady>
    requires fit { IsFit copy.size (plans_of script) }
    requires few_blocks { copy.blocks ≤ 262144 }
    ensures cause { IfErr result (λ no. IsAfterScript no.error) }
    ensures no_fault { IfErr result (λ no. ¬ (no.error ≡ DiskFails)) }
    ensures script { IfOk result (λ ready. ready.start.script ≡ script) }
    ensures sizes { IfOk result (λ ready. ready.start.size ≡ copy.size) }
    ensures blocks { IfOk result (λ ready. ready.start.blocks ≡ ready.copy.blocks) }
    ensures own_blocks { IfOk result (λ ready. ready.start.blocks ≡ copy.blocks) }
    ensures copy_size { IfOk result (λ ready. ready.copy.size ≡ copy.size) }
    ensures placed { IfOk result (λ ready. IsPlaced true (image_in ready.copy) ready.start) }
    ensures same { IfOk result (λ ready. image_in ready.copy ≡ image_in copy) }
    ensures refused { IfErr result
        (λ no. SaysOfImage (image_in copy) (parts_of (plans_of script)) no.error) }
    ensures found { IfErr result (λ no. IfSome no.copy (λ kept. image_in kept ≡ image_in copy)) }
    ensures found_size { IfErr result (λ no. IfSome no.copy (λ kept. kept.size ≡ copy.size)) }
    ensures found_blocks { IfErr result
        (λ no. IfSome no.copy (λ kept. length (image_in kept) ≡ copy.blocks)) }
    ensures refused_blocks { IfErr result (λ no. SaysOfBlocks copy.blocks no.error) }
    ensures handed { IfErr result (λ no. IsSome no.copy ↔ IsOfContent no.error) }
{
    let mut copy = copy;
    let (blocks, size) = (copy.blocks, copy.size);
    match Start::on(alloc, script, &mut copy.disk, blocks, size) {
        Ok(start) => Ok(ReadyCopy { start, copy }),
        Err(error) => Err(not_ready(error, copy)),
    }
}

// Why there is no start on a copy, which is handed out where its content is the cause.
fn not_ready(error: StartError, copy: ImageCopy) -> NotReady
    requires of_table { IsOfTable error }
    requires no_fault { ¬ (error ≡ DiskFails) }
    ensures error { result.error ≡ error }
    ensures copy { IfSome result.copy (λ kept. kept ≡ copy) }
    ensures handed { IsSome result.copy ↔ IsOfContent error }
{
    match error {
        StartError::Oom => NotReady { error, copy: None },
        _ => NotReady {
            error,
            copy: Some(copy),
        },
    }
}
