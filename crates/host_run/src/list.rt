//! `list`: the text of an image's partition table.
ghost use Rattle.std.specs.Prelude.{◌≡◌, None};
ghost use Rattle.host_io.specs.Disks.{OpensNone};
ghost use Rattle.host_run.specs.Listed.{ListLeaves};
ghost use Rattle.host_run.specs.Refusals.{refusal_line, start_status};
ghost use Rattle.host_run.specs.Seen.{DiskFaulted, SinkFaulted, WasRead, disk_seen, sink_seen};
ghost use Rattle.host_run.specs.Writes.{PutsText};
ghost use Rattle.host_start.specs.declared.error.StartError.TheVariants.{TooLarge};
ghost use Rattle.host_run.specs.declared.status.RunStatus.TheVariants.{DiskFault, SinkFault};

use crate::outcome::Outcome;
use crate::refusal::Refusal;
use crate::refuse::refuse;
use crate::status::RunStatus;
use host_block::BlockSize;
use host_io::{Disk, Sink};
use host_list::{ListError, list_image};
use host_start::{Limit, StartError};
use std::alloc::Global;

/// Attaches the image without writes, and puts the text of its table.
pub fn list<D: Disk, K: Sink>(
    alloc: Global,
    image: &str,
    size: BlockSize,
    disk: D,
    out: &mut K,
) -> Outcome<D>
    ensures disk_fault { result.status ≡ DiskFault
        → DiskFaulted (disk_seen D.Disk disk) (disk_seen D.Disk result.disk) }
    ensures sink_fault { result.status ≡ SinkFault
        → SinkFaulted (sink_seen K.Sink out.old) (sink_seen K.Sink out.new) }
    ensures only_reads { WasRead (disk_seen D.Disk disk) (disk_seen D.Disk result.disk) }
    ensures opens_none { OpensNone (D.shape disk) (D.shape result.disk) }
    ensures no_dry { result.dry ≡ None }
    ensures no_report { result.report ≡ None }
    ensures not_served { result.served ≡ None }
    ensures leaves { ListLeaves (record {
      asked = record { name = image.now; size = size };
      disk = disk_seen D.Disk disk;
      new_disk = disk_seen D.Disk result.disk;
      sink = sink_seen K.Sink out.old;
      new_sink = sink_seen K.Sink out.new;
    }) result.status }
{
    let mut disk = disk;
    match list_image(alloc, image, size, &mut disk, out) {
        Ok(()) => listed(RunStatus::Done, disk),
        Err(ListError::Sink) => listed(RunStatus::SinkFault, disk),
        Err(ListError::Disk) => no_list(StartError::Disk, disk, out),
        Err(ListError::TooManyBlocks) => no_list(too_large(Limit::Blocks), disk, out),
        Err(ListError::NoTable) => no_list(StartError::NoTable, disk, out),
        Err(ListError::TableTooLarge) => no_list(too_large(Limit::Table), disk, out),
        Err(ListError::Oom) => no_list(StartError::Oom, disk, out),
    }
}

fn too_large(what: Limit) -> StartError
    ensures { result ≡ TooLarge what }
{
    StartError::TooLarge { what }
}

// A call whose text isn't begun.
fn no_list<D, K: Sink>(error: StartError, disk: D, out: &mut K) -> Outcome<D>
    ensures status { result.status ≡ start_status error }
    ensures disk { result.disk ≡ disk }
    ensures no_dry { result.dry ≡ None }
    ensures no_report { result.report ≡ None }
    ensures not_served { result.served ≡ None }
    ensures line { PutsText (sink_seen K.Sink out.old) (sink_seen K.Sink out.new)
        (refusal_line (start_status error)) }
{
    refuse(Refusal::NoStart { error }, disk, out)
}

// A call whose text was begun.
fn listed<D>(status: RunStatus, disk: D) -> Outcome<D>
    ensures status { result.status ≡ status }
    ensures disk { result.disk ≡ disk }
    ensures no_dry { result.dry ≡ None }
    ensures no_report { result.report ≡ None }
    ensures not_served { result.served ≡ None }
{
    Outcome {
        status,
        disk,
        dry: None,
        report: None,
        served: None,
    }
}
