//! `make`: the text of a generated script.
ghost use Rattle.std.specs.Prelude.{◌≡◌, ◌++◌, IsTrue, None};
ghost use Rattle.host_run.specs.Made.{IsMakeStatus, IsPutStatus, PutsScript};
ghost use Rattle.host_run.specs.Refusals.{refusal_line};
ghost use Rattle.host_run.specs.Seen.{SinkFaulted, sink_seen};
ghost use Rattle.host_run.specs.Words.{IsMakeable};
ghost use Rattle.host_run.specs.Writes.{PutsText};
ghost use Rattle.host_run.specs.declared.status.RunStatus.TheVariants.{Done, OutOfMemory};
ghost use Rattle.host_run.specs.declared.status.RunStatus.TheVariants.{SinkFault};
ghost use Rattle.script_model.specs.Plans.{plans_of};
ghost use Rattle.script_model.specs.Print.{script_text};

use crate::outcome::Outcome;
use crate::refusal::Refusal;
use crate::refuse::refuse;
use crate::status::RunStatus;
use host_io::Sink;
use host_script::{Script, generate, print_script};
use std::alloc::Global;

/// Makes a script and puts its text.
pub fn make<D, K: Sink>(
    alloc: Global,
    seed: u32,
    sessions: u32,
    requests: u32,
    disk: D,
    out: &mut K,
) -> Outcome<D>
    requires { IsMakeable seed sessions requests }
    ensures status { IsMakeStatus result.status }
    ensures sink_fault { result.status ≡ SinkFault
        → SinkFaulted (sink_seen K.Sink out.old) (sink_seen K.Sink out.new) }
    ensures disk { result.disk ≡ disk }
    ensures no_dry { result.dry ≡ None }
    ensures no_report { result.report ≡ None }
    ensures not_served { result.served ≡ None }
    ensures text { PutsScript (sink_seen K.Sink out.old) (sink_seen K.Sink out.new)
        (record { seed = seed; sessions = sessions; requests = requests }) result.status }
    ensures line { result.status ≡ OutOfMemory
        → PutsText (sink_seen K.Sink out.old) (sink_seen K.Sink out.new)
        (refusal_line OutOfMemory) }
{
    match generate(alloc, seed, sessions, requests) {
        Ok(script) => put_script(&script, disk, out),
        Err(_) => refuse(Refusal::memory(), disk, out),
    }
}

// Puts the text of a script.
fn put_script<D, K: Sink>(script: &Script, disk: D, out: &mut K) -> Outcome<D>
    ensures status { IsPutStatus result.status }
    ensures sink_fault { result.status ≡ SinkFault
        → SinkFaulted (sink_seen K.Sink out.old) (sink_seen K.Sink out.new) }
    ensures disk { result.disk ≡ disk }
    ensures no_dry { result.dry ≡ None }
    ensures no_report { result.report ≡ None }
    ensures not_served { result.served ≡ None }
    ensures text { PutsText (sink_seen K.Sink out.old) (sink_seen K.Sink out.new)
        (script_text (plans_of script.now)) }
    ensures whole { result.status ≡ Done → IsTrue (K.tells out.old)
        → K.appended out.new ≡ K.appended out.old ++ script_text (plans_of script.now) }
{
    let was_written = print_script(script, out).is_ok();
    Outcome {
        status: if was_written {
            RunStatus::Done
        } else {
            RunStatus::SinkFault
        },
        disk,
        dry: None,
        report: None,
        served: None,
    }
}
