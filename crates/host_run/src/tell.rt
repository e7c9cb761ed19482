//! A run that was played is told.
ghost use Rattle.std.specs.Prelude.{◌≡◌, Some};
ghost use Rattle.host_io.specs.Causes.{HasCause};
ghost use Rattle.host_run.specs.Seen.{SinkFaulted, sink_seen};
ghost use Rattle.host_run.specs.Statuses.{HasRunReport, IsEndStatus, played_status};
ghost use Rattle.host_run.specs.Words.{text_of};
ghost use Rattle.host_run.specs.Writes.{TellsRun};
ghost use Rattle.host_run.specs.declared.status.RunStatus.TheVariants.{SinkFault};
ghost use Rattle.host_text.specs.Writing.{Writes};

use crate::ended::PlayedRun;
use crate::mode::Text;
use crate::outcome::Outcome;
use crate::status::RunStatus;
use host_io::{Sink, SinkFailed};
use host_report::{Closing, Report, write_report, write_summary};

/// Puts the text of a run.
pub fn tell<D, K: Sink>(run: PlayedRun<D>, text: Text, out: &mut K) -> Outcome<D>
    ensures status { IsEndStatus result.status }
    ensures ended { HasRunReport result.status result.report }
    ensures sink_fault { result.status ≡ SinkFault
        → SinkFaulted (sink_seen K.Sink out.old) (sink_seen K.Sink out.new) }
    ensures disk { result.disk ≡ run.disk }
    ensures dry { result.dry ≡ run.dry }
    ensures report { result.report ≡ Some run.report }
    ensures served { result.served ≡ Some run.served }
    ensures text { TellsRun (sink_seen K.Sink out.old) (sink_seen K.Sink out.new)
        (text_of text run.report) result.status }
{
    let was_written = put_text(&run.report, text, out).is_ok();
    Outcome {
        status: status_of(run.report.closing, was_written),
        disk: run.disk,
        dry: run.dry,
        report: Some(run.report),
        served: Some(run.served),
    }
}

// Puts the text or the summary of a report.
fn put_text<K: Sink>(report: &Report, text: Text, out: &mut K) -> Result<(), SinkFailed>
    ensures text { Writes (K.tells out.old) (K.appended out.old) (K.appended out.new)
        (text_of text report.now) result }
    ensures cause { HasCause (K.faults out.old) (K.faults out.new) result }
{
    match text {
        Text::Report { steps } => write_report(report, steps, out),
        Text::Summary => write_summary(report, out),
    }
}

// How a run ends whose sessions began.
fn status_of(closing: Closing, was_written: bool) -> RunStatus
    ensures { result ≡ played_status closing was_written }
{
    match closing {
        Closing::Fault => RunStatus::ClosingFault,
        Closing::NoMemory => RunStatus::OutOfMemory,
        Closing::Good | Closing::Cut => {
            if was_written {
                RunStatus::Done
            } else {
                RunStatus::SinkFault
            }
        }
    }
}
