//! A start is played on the disk that holds its image.
ghost use Rattle.std.specs.Prelude.{◌≡◌, ◌↔◌, ◌≤◌, ℕ, Bool, List, IfErr, IfOk, IsTrue, length, map};
ghost use Rattle.std.specs.Prelude.{true};
ghost use Rattle.host_device.specs.Faults.{RoseBy, faulted_count};
ghost use Rattle.host_play.specs.Plays.{IsReportOf};
ghost use Rattle.host_play.specs.Stages.{IsGround, IsSetting};
ghost use Rattle.host_report.specs.declared.closing.Closing.TheVariants.{Cut as WasCut};
ghost use Rattle.host_start.specs.Images.{IsPlaced};
ghost use Rattle.host_worker.specs.Gathered.{reported};
ghost use Rattle.play_law.specs.Runs.{IsLaidOut, IsSound};
ghost use Rattle.play_law.specs.LawfulRuns.{IsLawfulOnAnyDisk};
ghost use Rattle.script_model.specs.Plans.{plans_of};
ghost use Rattle.script_played.specs.Played.{PlaysPlans};
ghost use Rattle.host_run.specs.Played.{ranges_in};

use host_block::{Oom, Range};
use host_io::{Disk, Gate};
use host_play::{Ground, NoPlay, Played, Setting, play};
use host_start::{Place, Start};
use std::alloc::Global;
use std::sync::Wait;
use std::thread::Threads;

/// Plays the sessions of a start on the disk that it was made on, over workers, and makes the
/// closing flush.
pub fn play_start<R: Threads + Wait + Sync, D: Disk + Send, G: Gate + Sync>(
    rt: &R,
    alloc: Global,
    start: &Start,
    disk: D,
    setting: Setting,
    gate: &G,
) -> Result<Played<D>, NoPlay<D>>
    requires ground { IsGround (D.shape disk) (D.state disk) start.now.blocks start.now.size }
    requires places { length start.now.places.items ≡ length (plans_of start.now.script) }
    requires setting { IsSetting setting }

    // What was played, and by what.
    ensures played { IfOk result (λ run. PlaysPlans (plans_of start.now.script) run.report) }
    ensures lawful { IfOk result (λ run. IsLawfulOnAnyDisk run.report) }
    ensures laid_out { (tells : Bool) (image : List (List ℕ)) → IsPlaced tells image start.now
        → IfOk result (λ run. IsLaidOut run.report) }
    ensures report { IfOk result (λ run.
        IsReportOf (plans_of start.now.script) (ranges_in run.report) setting.workers setting.depth
        run.report) }
    ensures served { IfOk result (λ run. reported run.served ≡ run.report) }
    ensures size { IfOk result (λ run. run.report.size ≡ start.now.size) }
    ensures few { IfOk result (λ run. run.report.blocks ≤ 262144) }
    ensures cut { IfOk result (λ run. (run.report.closing ≡ WasCut) ↔ IsTrue setting.cut) }

    // The report is lawful for the image on which the start has its partitions, and a crash leaves
    // what its steps allow.
    ensures sound { (image : List (List ℕ)) → IsPlaced true image start.now
        → (D.state disk).durable ≡ image → IsTrue (D.shape disk).tells
        → IfOk result (λ run. IsSound image run.report (D.state run.disk)) }

    // What became of the disk.
    ensures opening { IfOk result (λ run. D.opening run.disk ≡ D.opening disk) }
    ensures shape { IfOk result (λ run. D.shape run.disk ≡ D.shape disk) }
    ensures blocks { IfOk result (λ run. run.report.blocks ≡ start.now.blocks) }
    ensures faults { IfOk result (λ run.
        RoseBy (faulted_count run.report.steps.items) (D.counts disk).faults
        (D.counts run.disk).faults) }
    ensures unfailing { IsTrue (D.never_fails disk)
        → IfOk result (λ run. (D.counts run.disk).faults ≡ (D.counts disk).faults) }
    ensures refused { IfErr result (λ no. no.disk ≡ disk) }
{
    let Ok(ranges) = ranges_of(alloc, start.places.as_slice()) else {
        return Err(NoPlay { disk });
    };
    let ground = Ground {
        disk,
        blocks: start.blocks,
        size: start.size,
        which: start.which,
    };
    play(rt, alloc, &start.script, &ranges, ground, setting, gate)
}

// The ranges of the partitions of the sessions.
fn ranges_of(alloc: Global, places: &[Place]) -> Result<Vec<Range>, Oom>
    ensures { IfOk result (λ ranges. ranges.items ≡ map (λ place. place.range) places.now) }
{
    match places.iter().map(|place| place.range).collect(alloc) {
        Ok(ranges) => Ok(ranges),
        Err(_) => Err(Oom),
    }
}
