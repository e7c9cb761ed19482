//! A script is played on the disk that was handed in.
ghost use Rattle.std.specs.Prelude.{◌≡◌, false, IfErr, IfOk};
ghost use Rattle.host_play.specs.Stages.{IsSetting};
ghost use Rattle.host_start.specs.Reading.{IsFit};
ghost use Rattle.host_worker.specs.Gathered.{reported};
ghost use Rattle.script_model.specs.Plans.{plans_of};
ghost use Rattle.host_run.specs.Played.{IsNoRun, IsPlayOf};
ghost use Rattle.host_run.specs.Runs.{IsRunOn};
ghost use Rattle.host_run.specs.Seen.{disk_seen};

use crate::ended::{NoRun, PlayedRun};
use crate::play_start::play_start;
use host_block::BlockSize;
use host_io::{Disk, Gate};
use host_play::Setting;
use host_script::Script;
use host_start::{StartError, start_on_disk};
use std::alloc::Global;
use std::sync::Wait;
use std::thread::Threads;

/// Attaches the image to be written, and plays the script on it.
pub fn play_on_disk<R: Threads + Wait + Sync, D: Disk + Send, G: Gate + Sync>(
    rt: &R,
    alloc: Global,
    script: Script,
    image: &str,
    size: BlockSize,
    setting: Setting,
    disk: D,
    gate: &G,
) -> Result<PlayedRun<D>, NoRun<D>>
    requires fit { IsFit size (plans_of script) }
    requires setting { IsSetting setting }
    ensures played { IfOk result
        (λ run. IsPlayOf (plans_of script) setting.workers setting.depth run.report) }
    ensures served { IfOk result (λ run. reported run.served ≡ run.report) }
    ensures ran { IfOk result (λ run. IsRunOn (record {
      name = image.now;
      size = size;
      on_copy = false;
      disk = disk_seen D.Disk disk;
      new_disk = disk_seen D.Disk run.disk;
      copy = run.dry;
    }) setting.cut run.report) }
    ensures refused { IfErr result (λ no. IsNoRun (record {
      name = image.now;
      size = size;
      on_copy = false;
      disk = disk_seen D.Disk disk;
      new_disk = disk_seen D.Disk no.disk;
      copy = no.dry;
    }) (plans_of script) no.error) }
{
    let mut disk = disk;
    match start_on_disk(alloc, script, &mut disk, image, size) {
        Ok(start) => match play_start(rt, alloc, &start, disk, setting, gate) {
            Ok(run) => Ok(PlayedRun {
                disk: run.disk,
                dry: None,
                report: run.report,
                served: run.served,
            }),
            Err(no) => Err(NoRun {
                disk: no.disk,
                dry: None,
                error: StartError::Oom,
            }),
        },
        Err(error) => Err(NoRun {
            disk,
            dry: None,
            error,
        }),
    }
}
