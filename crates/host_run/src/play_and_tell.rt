//! A script is played and told.
ghost use Rattle.std.specs.Prelude.{◌≡◌, ◌≢◌, Option, IfErr, IfNone, IfOk, IsTrue};
ghost use Rattle.host_io.specs.Disks.{OpensNone};
ghost use Rattle.host_play.specs.Stages.{IsSetting};
ghost use Rattle.host_run.specs.Ending.{IsScriptOf};
ghost use Rattle.host_run.specs.Refusals.{refusal_line};
ghost use Rattle.host_run.specs.Runs.{IsRunOn, RunLeaves};
ghost use Rattle.host_run.specs.Seen.{DiskFaulted, SinkFaulted, SourceSeen, WasRead, disk_seen};
ghost use Rattle.host_run.specs.Seen.{sink_seen};
ghost use Rattle.host_run.specs.Statuses.{HandsOut, HasRunReport, IsServedAs};
ghost use Rattle.host_run.specs.Words.{Making, playing_by};
ghost use Rattle.host_run.specs.Writes.{PutsText};
ghost use Rattle.host_run.specs.declared.status.RunStatus.TheVariants.{BadWords, DiskFault};
ghost use Rattle.host_run.specs.declared.status.RunStatus.TheVariants.{ScriptFault, SinkFault};
ghost use Rattle.host_start.specs.Reading.{IsFit};
ghost use Rattle.host_worker.specs.Gathered.{reported};
ghost use Rattle.script_model.specs.Plans.{plans_of};
ghost use Rattle.host_run.specs.Played.{IsNoRun, IsPlayOf};

use crate::ended::{NoRun, PlayedRun};
use crate::mode::Mode;
use crate::on_copy::play_on_copy;
use crate::on_disk::play_on_disk;
use crate::outcome::Outcome;
use crate::refusal::Refusal;
use crate::refuse::refuse_on;
use crate::tell::tell;
use host_block::BlockSize;
use host_io::{Disk, Gate, Sink};
use host_script::Script;
use std::alloc::Global;
use std::sync::Wait;
use std::thread::Threads;

/// Plays a script on the image, or on a copy of it, and puts the text of the run.
pub fn play_and_tell<R: Threads + Wait + Sync, D: Disk + Send, K: Sink, G: Gate + Sync>(
    rt: &R,
    alloc: Global,
    script: Script,
    image: &str,
    size: BlockSize,
    mode: Mode,
    disk: D,
    out: &mut K,
    gate: &G,
) -> Outcome<D>
    requires fit { IsFit size (plans_of script) }
    requires setting { IsSetting mode.setting }
    ensures no_words { result.status ≢ BadWords }
    ensures disk_fault { result.status ≡ DiskFault
        → DiskFaulted (disk_seen D.Disk disk) (disk_seen D.Disk result.disk) }
    ensures sink_fault { result.status ≡ SinkFault
        → SinkFaulted (sink_seen K.Sink out.old) (sink_seen K.Sink out.new) }
    ensures no_source { result.status ≢ ScriptFault }

    // What it leaves, wherever the script comes from.
    ensures run { (making : Option Making) (source new_source : SourceSeen) →
        IsScriptOf size making source new_source (plans_of script) →
        RunLeaves (record {
          playing = playing_by image.now size mode making;
          source = source;
          new_source = new_source;
          disk = disk_seen D.Disk disk;
          new_disk = disk_seen D.Disk result.disk;
          sink = sink_seen K.Sink out.old;
          new_sink = sink_seen K.Sink out.new;
          copy = result.dry;
        }) result.status result.report }
    ensures opens_none { IsTrue mode.dry → OpensNone (D.shape disk) (D.shape result.disk) }
    ensures reads { IsTrue mode.dry
        → WasRead (disk_seen D.Disk disk) (disk_seen D.Disk result.disk) }
    ensures refused_reads { IfNone result.report
        (WasRead (disk_seen D.Disk disk) (disk_seen D.Disk result.disk)) }
    ensures report { HasRunReport result.status result.report }
    ensures served { IsServedAs result.served result.report }
    ensures dry { HandsOut mode.dry result.dry result.status result.report }
    ensures line { IfNone result.report (PutsText (sink_seen K.Sink out.old)
        (sink_seen K.Sink out.new) (refusal_line result.status)) }
{
    match play_script(rt, alloc, script, image, size, mode, disk, gate) {
        Ok(run) => tell(run, mode.text, out),
        Err(no) => refuse_on(Refusal::NoStart { error: no.error }, no.dry, no.disk, out),
    }
}

// Plays the script on the disk itself or on a copy.
fn play_script<R: Threads + Wait + Sync, D: Disk + Send, G: Gate + Sync>(
    rt: &R,
    alloc: Global,
    script: Script,
    image: &str,
    size: BlockSize,
    mode: Mode,
    disk: D,
    gate: &G,
) -> Result<PlayedRun<D>, NoRun<D>>
    requires fit { IsFit size (plans_of script) }
    requires setting { IsSetting mode.setting }
    ensures played { IfOk result
        (λ run. IsPlayOf (plans_of script) mode.setting.workers mode.setting.depth run.report) }
    ensures served { IfOk result (λ run. reported run.served ≡ run.report) }
    ensures ran { IfOk result (λ run. IsRunOn (record {
      name = image.now;
      size = size;
      on_copy = mode.dry;
      disk = disk_seen D.Disk disk;
      new_disk = disk_seen D.Disk run.disk;
      copy = run.dry;
    }) mode.setting.cut run.report) }
    ensures refused { IfErr result (λ no. IsNoRun (record {
      name = image.now;
      size = size;
      on_copy = mode.dry;
      disk = disk_seen D.Disk disk;
      new_disk = disk_seen D.Disk no.disk;
      copy = no.dry;
    }) (plans_of script) no.error) }
    ensures opens_none { IsTrue mode.dry
        → IfOk result (λ run. OpensNone (D.shape disk) (D.shape run.disk)) }
    ensures refused_opens_none { IsTrue mode.dry
        → IfErr result (λ no. OpensNone (D.shape disk) (D.shape no.disk)) }
{
    if mode.dry {
        play_on_copy(rt, alloc, script, image, size, mode.setting, disk, gate)
    } else {
        play_on_disk(rt, alloc, script, image, size, mode.setting, disk, gate)
    }
}
