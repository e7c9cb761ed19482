//! How the program ends.
ghost use Rattle.std.specs.Prelude.{◌≡◌, IfOk, OnErr};
ghost use Rattle.std.specs.Process.{exit_status};
ghost use Rattle.blockhost.specs.Program.{IsRunEnd};
ghost use Rattle.host_run.specs.Seen.{disk_seen, sink_seen, source_seen};
ghost use Rattle.host_run.specs.Words.{said_by};

use host_io::{Disk, OpenGate, Sink, Source};
use host_run::{Outcome, run};
use std::alloc::Global;
use std::io;
use std::mem::forget;
use std::process::ExitCode;
use std::sync::Wait;
use std::thread::Threads;

/// The number of the status of a run, and the disk that it was called on.
#[derive(Drop)]
pub struct Ended<D> {
    pub number: u8,
    pub disk: D,
}

/// Runs the words. What the run leaves in memory isn't given back: the process ends next, and
/// giving back a long report piece by piece would take longer.
pub fn run_words<'a, R: Threads + Wait + Sync, S: Source, D: Disk + Send, K: Sink>(
    rt: &R,
    alloc: Global,
    words: &'a [&'a str],
    script: &mut S,
    disk: D,
    out: &mut K,
) -> Ended<D>
    ensures { IsRunEnd (said_by words.entry.now)
        (record {
          source = source_seen S.Source script.old;
          disk = disk_seen D.Disk disk;
          sink = sink_seen K.Sink out.old;
        })
        (record {
          source = source_seen S.Source script.new;
          disk = disk_seen D.Disk result.disk;
          sink = sink_seen K.Sink out.new;
        }) result.number }
{
    let outcome = run(rt, alloc, words, script, disk, out, &OpenGate);
    let Outcome {
        status,
        disk,
        dry,
        report,
        served,
    } = outcome;
    forget(dry);
    forget(report);
    forget(served);
    Ended {
        number: status.number(),
        disk,
    }
}

/// The exit status of the program: the number of the run, or that of want of memory where nothing
/// could be run.
pub fn exit_code(number: io::Result<u8>) -> ExitCode
    ensures ok { IfOk number (λ number. exit_status result ≡ number) }
    ensures err { OnErr number (exit_status result ≡ 8) }
{
    match number {
        Ok(number) => ExitCode::from(number),
        Err(_) => ExitCode::from(8),
    }
}
