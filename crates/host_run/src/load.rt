//! `load`: a script is generated and played on a copy of an image.
ghost use Rattle.std.specs.Prelude.{◌≡◌, ◌≢◌, Some, IfNone, IsTrue};
ghost use Rattle.host_io.specs.Disks.{OpensNone};
ghost use Rattle.host_play.specs.Stages.{IsSetting};
ghost use Rattle.host_run.specs.Refusals.{refusal_line};
ghost use Rattle.host_run.specs.Runs.{RunLeaves};
ghost use Rattle.host_run.specs.Seen.{DiskFaulted, SinkFaulted, SourceSeen, WasRead, disk_seen};
ghost use Rattle.host_run.specs.Seen.{sink_seen};
ghost use Rattle.host_run.specs.Statuses.{HandsOut, HasRunReport, IsServedAs};
ghost use Rattle.host_run.specs.Words.{IsMakeable, playing_by};
ghost use Rattle.host_run.specs.Writes.{PutsText};
ghost use Rattle.host_run.specs.declared.status.RunStatus.TheVariants.{BadWords, DiskFault};
ghost use Rattle.host_run.specs.declared.status.RunStatus.TheVariants.{ScriptFault, SinkFault};

use crate::mode::Mode;
use crate::outcome::Outcome;
use crate::play_and_tell::play_and_tell;
use crate::refusal::Refusal;
use crate::refuse::refuse;
use host_block::BlockSize;
use host_io::{Disk, Gate, Sink};
use host_start::make_script;
use std::alloc::Global;
use std::sync::Wait;
use std::thread::Threads;

/// Generates a script, plays it on the image, or on a copy of it, and puts the text of the run.
pub fn load<R: Threads + Wait + Sync, D: Disk + Send, K: Sink, G: Gate + Sync>(
    rt: &R,
    alloc: Global,
    seed: u32,
    sessions: u32,
    requests: u32,
    image: &str,
    size: BlockSize,
    mode: Mode,
    disk: D,
    out: &mut K,
    gate: &G,
) -> Outcome<D>
    requires numbers { IsMakeable seed sessions requests }
    requires setting { IsSetting mode.setting }
    ensures no_words { result.status ≢ BadWords }
    ensures disk_fault { result.status ≡ DiskFault
        → DiskFaulted (disk_seen D.Disk disk) (disk_seen D.Disk result.disk) }
    ensures sink_fault { result.status ≡ SinkFault
        → SinkFaulted (sink_seen K.Sink out.old) (sink_seen K.Sink out.new) }
    ensures no_source { result.status ≢ ScriptFault }

    // What it leaves, whatever the source, which it doesn't touch.
    ensures run { (source new_source : SourceSeen)
        → RunLeaves (record {
          playing = playing_by image.now size mode
              (Some (record { seed = seed; sessions = sessions; requests = requests }));
          source = source;
          new_source = new_source;
          disk = disk_seen D.Disk disk;
          new_disk = disk_seen D.Disk result.disk;
          sink = sink_seen K.Sink out.old;
          new_sink = sink_seen K.Sink out.new;
          copy = result.dry;
        }) result.status result.report }
    ensures opens_none { IsTrue mode.dry → OpensNone (D.shape disk) (D.shape result.disk) }
    ensures reads { IsTrue mode.dry
        → WasRead (disk_seen D.Disk disk) (disk_seen D.Disk result.disk) }
    ensures refused_reads { IfNone result.report
        (WasRead (disk_seen D.Disk disk) (disk_seen D.Disk result.disk)) }
    ensures report { HasRunReport result.status result.report }
    ensures served { IsServedAs result.served result.report }
    ensures dry { HandsOut mode.dry result.dry result.status result.report }
    ensures line { IfNone result.report (PutsText (sink_seen K.Sink out.old)
        (sink_seen K.Sink out.new) (refusal_line result.status)) }
{
    match make_script(alloc, seed, sessions, requests, size) {
        Ok(script) => play_and_tell(rt, alloc, script, image, size, mode, disk, out, gate),
        Err(error) => refuse(Refusal::NoStart { error }, disk, out),
    }
}
