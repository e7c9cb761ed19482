//! `run`: a script is read and played.
ghost use Rattle.std.specs.Prelude.{◌≡◌, ◌≢◌, None, IfNone, IsTrue};
ghost use Rattle.host_io.specs.Disks.{OpensNone};
ghost use Rattle.host_play.specs.Stages.{IsSetting};
ghost use Rattle.host_run.specs.Refusals.{refusal_line};
ghost use Rattle.host_run.specs.Runs.{RunLeaves};
ghost use Rattle.host_run.specs.Seen.{DiskFaulted, SinkFaulted, SourceFaulted, disk_seen};
ghost use Rattle.host_run.specs.Seen.{sink_seen, source_seen};
ghost use Rattle.host_run.specs.Statuses.{HandsOut, HasRunReport, IsServedAs};
ghost use Rattle.host_run.specs.Words.{playing_by};
ghost use Rattle.host_run.specs.Writes.{PutsText};
ghost use Rattle.host_run.specs.declared.status.RunStatus.TheVariants.{BadWords, DiskFault};
ghost use Rattle.host_run.specs.declared.status.RunStatus.TheVariants.{ScriptFault, SinkFault};

use crate::mode::Mode;
use crate::outcome::Outcome;
use crate::play_and_tell::play_and_tell;
use crate::refusal::Refusal;
use crate::refuse::refuse;
use host_block::BlockSize;
use host_io::{Disk, Gate, Sink, Source};
use host_start::read_script;
use std::alloc::Global;
use std::sync::Wait;
use std::thread::Threads;

/// Reads a script, plays it on the image, or on a copy of it, and puts the text of the run.
pub fn run_script<R: Threads + Wait + Sync, S: Source, D: Disk + Send, K: Sink, G: Gate + Sync>(
    rt: &R,
    alloc: Global,
    source: &mut S,
    image: &str,
    size: BlockSize,
    mode: Mode,
    disk: D,
    out: &mut K,
    gate: &G,
) -> Outcome<D>
    requires setting { IsSetting mode.setting }
    ensures no_words { result.status ≢ BadWords }
    ensures disk_fault { result.status ≡ DiskFault
        → DiskFaulted (disk_seen D.Disk disk) (disk_seen D.Disk result.disk) }
    ensures sink_fault { result.status ≡ SinkFault
        → SinkFaulted (sink_seen K.Sink out.old) (sink_seen K.Sink out.new) }
    ensures script_fault { result.status ≡ ScriptFault
        → SourceFaulted (source_seen S.Source source.old) (source_seen S.Source source.new) }
    ensures run { RunLeaves (record {
      playing = playing_by image.now size mode None;
      source = source_seen S.Source source.old;
      new_source = source_seen S.Source source.new;
      disk = disk_seen D.Disk disk;
      new_disk = disk_seen D.Disk result.disk;
      sink = sink_seen K.Sink out.old;
      new_sink = sink_seen K.Sink out.new;
      copy = result.dry;
    }) result.status result.report }
    ensures opens_none { IsTrue mode.dry → OpensNone (D.shape disk) (D.shape result.disk) }
    ensures report { HasRunReport result.status result.report }
    ensures served { IsServedAs result.served result.report }
    ensures dry { HandsOut mode.dry result.dry result.status result.report }
    ensures line { IfNone result.report (PutsText (sink_seen K.Sink out.old)
        (sink_seen K.Sink out.new) (refusal_line result.status)) }
{
    match read_script(alloc, source, size) {
        Ok(script) => play_and_tell(rt, alloc, script, image, size, mode, disk, out, gate),
        Err(error) => refuse(Refusal::NoStart { error }, disk, out),
    }
}
