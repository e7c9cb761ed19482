//! The report is gathered.
ghost use Rattle.std.specs.Prelude.{◌≡◌, ◌++◌, ◌&&◌, is_some, IfSome, IsTrue};
ghost use Rattle.host_device.specs.Faults.{RoseBy, faulted_count};
ghost use Rattle.host_device.specs.Seen.{KeepsHistory, disk_of, opening_of, shape_of, steps_of};
ghost use Rattle.host_report.specs.Lawful.{closing_steps};
ghost use Rattle.host_worker.specs.Gathered.{IsReportGathered, report_on, reported};

use crate::finished::{Ends, Finished};
use host_block::BlockSize;
use host_gpt::Which;
use host_io::Disk;
use host_report::{Closing, Report};
use std::snapshot::Snapshot;

/// Shows that a report comes from a finished server. Only `gather` makes one.
#[derive(Drop)]
pub struct Served {
    report: Snapshot<Report>,
}

/// The report of a finished server, where its histories are kept, and the disk. The closing flush
/// was made on the device as `closing` says. It takes no memory.
pub fn gather<D: Disk>(
    finished: Finished<D>,
    blocks: u64,
    size: BlockSize,
    which: Which,
    closing: Closing,
) -> (Option<(Report, Served)>, D)
    requires story { (steps_of finished.device).items
        ≡ finished.ends.story ++ closing_steps closing }
    requires size { size ≡ finished.ends.size }
    ensures report { IfSome result.0 (λ made. IsReportGathered finished.ends made.0) }
    ensures given { IfSome result.0 (λ made.
        (made.0.blocks ≡ blocks) × (made.0.size ≡ size) × (made.0.which ≡ which)
        × (made.0.closing ≡ closing)) }
    ensures steps { IfSome result.0
        (λ made. made.0.steps.items ≡ (steps_of finished.device).items) }
    ensures served { IfSome result.0 (λ made. reported made.1 ≡ made.0) }
    ensures kept { is_some result.0 ≡ (finished.ends.keeps && (steps_of finished.device).kept) }
    ensures gathered { IsReportGathered finished.ends
        (report_on finished.ends blocks which closing) }
    ensures disk { result.1 ≡ disk_of finished.device }
    ensures told { IsTrue (shape_of finished.device).tells → KeepsHistory finished.device }
    ensures shape { shape_of finished.device ≡ D.shape (opening_of finished.device) }
    ensures opening { D.opening (disk_of finished.device) ≡ D.opening (opening_of finished.device) }
    ensures faults { RoseBy (faulted_count (steps_of finished.device).items)
        (D.counts (opening_of finished.device)).faults (D.counts (disk_of finished.device)).faults }
    ensures unfailing { IsTrue (D.never_fails (opening_of finished.device))
        → IsTrue (D.never_fails (disk_of finished.device))
        × ((D.counts (disk_of finished.device)).faults
        ≡ (D.counts (opening_of finished.device)).faults) }
{
    let Finished { device, ends } = finished;
    let Ends {
        sessions,
        frames_home,
        ..
    } = ends;
    device.keeps_history();
    let (steps, cache) = device.into_parts();
    let disk = cache.into_disk();
    let Some(sessions) = sessions.into_list() else {
        return (None, disk);
    };
    let Some(steps) = steps.into_list() else {
        return (None, disk);
    };
    let report = Report {
        blocks,
        size,
        which,
        sessions,
        steps,
        closing,
        frames_home,
    };
    let served = Served {
        report: Snapshot::of(&report),
    };
    (Some((report, served)), disk)
}
