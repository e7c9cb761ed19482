//! The report of a run.
ghost use Rattle.std.specs.Prelude.{◌≡◌, ◌++◌, true, IsTrue};
ghost use Rattle.host_device.specs.Faults.{RoseBy, faulted_count};
ghost use Rattle.host_device.specs.Seen.{KeepsHistory, disk_of, opening_of, shape_of, steps_of};
ghost use Rattle.host_report.specs.Lawful.{closing_steps};
ghost use Rattle.host_worker.specs.Gathered.{IsReportGathered, reported};

use host_block::BlockSize;
use host_gpt::Which;
use host_io::Disk;
use host_report::{Closing, Report};
use host_worker::{Finished, Served, gather};

/// The report of a server that kept its histories, and the disk. It is always there.
pub fn gather_kept<D: Disk>(
    finished: Finished<D>,
    blocks: u64,
    size: BlockSize,
    which: Which,
    closing: Closing,
) -> (Report, Served, D)
    requires story { (steps_of finished.device).items
        ≡ finished.ends.story ++ closing_steps closing }
    requires size { size ≡ finished.ends.size }
    requires kept { (finished.ends.keeps ≡ true) × ((steps_of finished.device).kept ≡ true) }
    ensures gathered { IsReportGathered finished.ends result.0 }
    ensures given { (result.0.blocks ≡ blocks) × (result.0.size ≡ size) × (result.0.which ≡ which)
        × (result.0.closing ≡ closing) }
    ensures steps { result.0.steps.items ≡ (steps_of finished.device).items }
    ensures served { reported result.1 ≡ result.0 }
    ensures disk { result.2 ≡ disk_of finished.device }
    ensures told { IsTrue (shape_of finished.device).tells → KeepsHistory finished.device }
    ensures shape { shape_of finished.device ≡ D.shape (opening_of finished.device) }
    ensures opening { D.opening (disk_of finished.device) ≡ D.opening (opening_of finished.device) }
    ensures faults { RoseBy (faulted_count (steps_of finished.device).items)
        (D.counts (opening_of finished.device)).faults (D.counts (disk_of finished.device)).faults }
    ensures unfailing { IsTrue (D.never_fails (opening_of finished.device))
        → IsTrue (D.never_fails (disk_of finished.device))
        × ((D.counts (disk_of finished.device)).faults
        ≡ (D.counts (opening_of finished.device)).faults) }
{
    let (made, disk) = gather(finished, blocks, size, which, closing);
    let (report, served) = made.unwrap();
    (report, served, disk)
}
