//! A script is played on a copy of an image.
ghost use Rattle.std.specs.Prelude.{◌≡◌, true, IfErr, IfOk};
ghost use Rattle.host_io.specs.Disks.{OpensNone};
ghost use Rattle.host_play.specs.Stages.{IsSetting};
ghost use Rattle.host_start.specs.Reading.{IsFit};
ghost use Rattle.host_worker.specs.Gathered.{reported};
ghost use Rattle.script_model.specs.Plans.{plans_of};
ghost use Rattle.host_run.specs.Played.{IsNoRun, IsPlayOf};
ghost use Rattle.host_run.specs.Runs.{IsRunOn};
ghost use Rattle.host_run.specs.Seen.{disk_seen};

use crate::ended::{NoRun, PlayedRun, disk_of};
use crate::play_start::play_start;
use host_block::BlockSize;
use host_io::{Disk, Gate};
use host_play::Setting;
use host_script::Script;
use host_start::{ReadyCopy, StartError, start_on_copy};
use std::alloc::Global;
use std::sync::Wait;
use std::thread::Threads;

/// Copies the image, which is attached to be read alone, and plays the script on the copy.
pub fn play_on_copy<R: Threads + Wait + Sync, D: Disk, G: Gate + Sync>(
    rt: &R,
    alloc: Global,
    script: Script,
    image: &str,
    size: BlockSize,
    setting: Setting,
    disk: D,
    gate: &G,
) -> Result<PlayedRun<D>, NoRun<D>>
    requires fit { IsFit size (plans_of script) }
    requires setting { IsSetting setting }
    ensures played { IfOk result
        (λ run. IsPlayOf (plans_of script) setting.workers setting.depth run.report) }
    ensures served { IfOk result (λ run. reported run.served ≡ run.report) }
    ensures ran { IfOk result (λ run. IsRunOn (record {
      name = image.now;
      size = size;
      on_copy = true;
      disk = disk_seen D.Disk disk;
      new_disk = disk_seen D.Disk run.disk;
      copy = run.dry;
    }) setting.cut run.report) }
    ensures refused { IfErr result (λ no. IsNoRun (record {
      name = image.now;
      size = size;
      on_copy = true;
      disk = disk_seen D.Disk disk;
      new_disk = disk_seen D.Disk no.disk;
      copy = no.dry;
    }) (plans_of script) no.error) }
    ensures opens_none { IfOk result (λ run. OpensNone (D.shape disk) (D.shape run.disk)) }
    ensures refused_opens_none { IfErr result (λ no. OpensNone (D.shape disk) (D.shape no.disk)) }
{
    let mut disk = disk;
    match start_on_copy(alloc, script, &mut disk, image, size) {
        Ok(ready) => {
            let ReadyCopy { start, copy } = ready;
            match play_start(rt, alloc, &start, copy.disk, setting, gate) {
                Ok(run) => Ok(PlayedRun {
                    disk,
                    dry: Some(run.disk),
                    report: run.report,
                    served: run.served,
                }),
                Err(_) => Err(NoRun {
                    disk,
                    dry: None,
                    error: StartError::Oom,
                }),
            }
        }
        Err(no) => Err(NoRun {
            disk,
            dry: disk_of(no.copy),
            error: no.error,
        }),
    }
}
