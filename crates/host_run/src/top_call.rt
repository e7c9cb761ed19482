//! The top call.
ghost use Rattle.std.specs.Prelude.{◌≡◌, ◌≢◌, ◌⊎◌, false, None, IfNone, IfSome};
ghost use Rattle.host_io.specs.Disks.{OpensNone};
ghost use Rattle.host_run.specs.Listed.{ListLeaves};
ghost use Rattle.host_run.specs.Made.{PutsScript};
ghost use Rattle.host_run.specs.Refusals.{refusal_line};
ghost use Rattle.host_run.specs.Runs.{RunLeaves};
ghost use Rattle.host_run.specs.Seen.{DiskFaulted, SinkFaulted, SourceFaulted, WasRead, disk_seen};
ghost use Rattle.host_run.specs.Seen.{sink_seen, source_seen};
ghost use Rattle.host_run.specs.Statuses.{HandsOut, HasReport, IsServedAs};
ghost use Rattle.host_run.specs.Words.{listing_in, making_in, playing_in, plays_on_disk};
ghost use Rattle.host_run.specs.Words.{reads_script, said_by};
ghost use Rattle.host_run.specs.Writes.{PutsText};
ghost use Rattle.host_run.specs.declared.status.RunStatus.TheVariants.{BadWords, DiskFault, Done};
ghost use Rattle.host_run.specs.declared.status.RunStatus.TheVariants.{OutOfMemory, ScriptFault};
ghost use Rattle.host_run.specs.declared.status.RunStatus.TheVariants.{SinkFault};

use crate::list::list;
use crate::load::load;
use crate::make::make;
use crate::mode::{Mode, Text, setting_of};
use crate::outcome::Outcome;
use crate::refusal::Refusal;
use crate::refuse::refuse;
use crate::run_script::run_script;
use crate::words::read_command;
use host_io::{Disk, Gate, Sink, Source};
use host_words::{Command, WordsError};
use std::alloc::Global;
use std::sync::Wait;
use std::thread::Threads;

/// Runs the words after the program's name. `run` plays the script on the image, with `--dry` on a
/// copy of it in memory, and puts the text of the run; `load` plays a generated script as `run
/// --dry` does, and puts the summary; `list` attaches the image without writes and puts the text of
/// its table; `make` puts the text of a generated script. A refusal puts one line, and its status
/// is the same whether or not `out` takes that.
pub fn run<'a, R: Threads + Wait + Sync, S: Source, D: Disk + Send, K: Sink, G: Gate + Sync>(
    rt: &R,
    alloc: Global,
    words: &'a [&'a str],
    script: &mut S,
    disk: D,
    out: &mut K,
    gate: &G,
) -> Outcome<D>
    // A status that names a failure comes only where that object's count rose.
    ensures disk_fault { result.status ≡ DiskFault
        → DiskFaulted (disk_seen D.Disk disk) (disk_seen D.Disk result.disk) }
    ensures script_fault { result.status ≡ ScriptFault →
        SourceFaulted (source_seen S.Source script.old) (source_seen S.Source script.new) }
    ensures sink_fault { result.status ≡ SinkFault
        → SinkFaulted (sink_seen K.Sink out.old) (sink_seen K.Sink out.new) }

    // Words outside the grammar are told exactly, but for want of memory. The source is touched by
    // `run` alone, and the disk by no call but those that play or list.
    ensures bad_words { result.status ≡ BadWords → said_by words.entry.now ≡ None }
    ensures outside { said_by words.entry.now ≡ None
        → (result.status ≡ BadWords) ⊎ (result.status ≡ OutOfMemory) }
    ensures source_untouched { reads_script (said_by words.entry.now) ≡ false
        → script.new ≡ script.old }
    ensures disk_untouched { playing_in (said_by words.entry.now) ≡ None →
        listing_in (said_by words.entry.now) ≡ None → result.disk ≡ disk }

    // What a run on a script leaves, of `run` or of `load`: the headline, or a refusal that says
    // its cause; and that what can be played is played.
    ensures run { IfSome (playing_in (said_by words.entry.now)) (λ playing. RunLeaves (record {
      playing = playing;
      source = source_seen S.Source script.old;
      new_source = source_seen S.Source script.new;
      disk = disk_seen D.Disk disk;
      new_disk = disk_seen D.Disk result.disk;
      sink = sink_seen K.Sink out.old;
      new_sink = sink_seen K.Sink out.new;
      copy = result.dry;
    }) result.status result.report) }

    // Which statuses have a report, and that a server served it.
    ensures report { HasReport (listing_in (said_by words.entry.now))
        (making_in (said_by words.entry.now)) result.status result.report }
    ensures served { IsServedAs result.served result.report }
    ensures no_report { playing_in (said_by words.entry.now) ≡ None → result.report ≡ None }

    // The disk that was handed in was only read unless sessions were played on it, and no image was
    // attached there to be written but where the words ask for that. A copy is handed out where one
    // was played on or its content is the cause of a refusal.
    ensures only_reads { plays_on_disk (said_by words.entry.now) ≡ false →
        WasRead (disk_seen D.Disk disk) (disk_seen D.Disk result.disk) }
    ensures opens_none { plays_on_disk (said_by words.entry.now) ≡ false
        → OpensNone (D.shape disk) (D.shape result.disk) }
    ensures refused_reads { IfNone result.report
        (WasRead (disk_seen D.Disk disk) (disk_seen D.Disk result.disk)) }
    ensures dry { IfSome (playing_in (said_by words.entry.now)) (λ playing.
        HandsOut playing.dry result.dry result.status result.report) }
    ensures no_dry { playing_in (said_by words.entry.now) ≡ None → result.dry ≡ None }

    // What was put: the line of a refusal, the text of a table, or that of a script. That of a
    // report is said by `run`.
    ensures line { IfNone result.report (result.status ≢ Done → result.status ≢ SinkFault
        → PutsText (sink_seen K.Sink out.old) (sink_seen K.Sink out.new)
        (refusal_line result.status)) }
    ensures list { IfSome (listing_in (said_by words.entry.now)) (λ listing. ListLeaves (record {
      asked = listing;
      disk = disk_seen D.Disk disk;
      new_disk = disk_seen D.Disk result.disk;
      sink = sink_seen K.Sink out.old;
      new_sink = sink_seen K.Sink out.new;
    }) result.status) }
    ensures make { IfSome (making_in (said_by words.entry.now)) (λ making.
        PutsScript (sink_seen K.Sink out.old) (sink_seen K.Sink out.new) making result.status) }
{
    let command = match read_command(alloc, words) {
        Ok(command) => command,
        Err(WordsError::BadWords) => return refuse(Refusal::Words, disk, out),
        Err(WordsError::Oom) => return refuse(Refusal::memory(), disk, out),
    };
    match &command {
        Command::Run {
            image,
            block,
            workers,
            depth,
            dry,
            cut,
            steps,
        } => {
            let mode = Mode {
                setting: setting_of(*workers, *depth, *cut),
                dry: *dry,
                text: Text::Report { steps: *steps },
            };
            run_script(rt, alloc, script, image, *block, mode, disk, out, gate)
        }
        Command::List { image, block } => list(alloc, image, *block, disk, out),
        Command::Make {
            seed,
            sessions,
            requests,
        } => make(alloc, *seed, *sessions, *requests, disk, out),
        Command::Load {
            image,
            seed,
            sessions,
            requests,
            block,
            workers,
            depth,
        } => {
            let mode = Mode {
                setting: setting_of(*workers, *depth, false),
                dry: true,
                text: Text::Summary,
            };
            load(
                rt, alloc, *seed, *sessions, *requests, image, *block, mode, disk, out, gate,
            )
        }
    }
}
