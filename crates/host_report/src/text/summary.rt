// The text of a summary.
ghost use Rattle.std.specs.Prelude.{◌≡◌};
ghost use Rattle.host_io.specs.Causes.{HasCause};
ghost use Rattle.host_report.specs.Summary.{answers_line, load_line, summary_text};
ghost use Rattle.host_text.specs.Writing.{PutsHeldText, Writes};

use super::counts::counts_of;
use super::report::{write_count, write_end};
use crate::report::Report;
use host_io::{Sink, SinkFailed};
use host_text::{Held, Word, put_line};

/// Puts the five lines of a summary.
pub fn write_summary<K: Sink>(report: &Report, out: &mut K) -> Result<(), SinkFailed>
    ensures tells { K.tells out.new ≡ K.tells out.old }
    ensures text { Writes (K.tells out.old) (K.appended out.old) (K.appended out.new)
        (summary_text report.now) result }
    ensures cause { HasCause (K.faults out.old) (K.faults out.new) result }
{
    let mut held = Held::new();
    write_lines(report, &mut held, out)?;
    held.send(out)
}

fn write_lines<K: Sink>(report: &Report, held: &mut Held, out: &mut K) -> Result<(), SinkFailed>
    ensures { PutsHeldText K.tells K.faults K.appended out.old held.old out.new held.new
        (summary_text report.now) result }
{
    let sessions = report.sessions.as_slice();
    let counts = counts_of(sessions);
    write_load(sessions.len() as u64, counts.records, held, out)?;
    write_answers(counts.answers, counts.good, counts.failed, held, out)?;
    write_count(report.steps.len(), held, out)?;
    write_end(report.closing, held, out)
}

fn write_load<K: Sink>(
    sessions: u64,
    records: u128,
    held: &mut Held,
    out: &mut K,
) -> Result<(), SinkFailed>
    ensures { PutsHeldText K.tells K.faults K.appended out.old held.old out.new held.new
        (load_line sessions records) result }
{
    let words = [
        Word::Text(b"load"),
        Word::Number(sessions),
        Word::Text(b"sessions"),
        Word::Total(records),
        Word::Text(b"records"),
    ];
    put_line(b"", &words, held, out)
}

fn write_answers<K: Sink>(
    answers: u128,
    good: u128,
    failed: u128,
    held: &mut Held,
    out: &mut K,
) -> Result<(), SinkFailed>
    ensures { PutsHeldText K.tells K.faults K.appended out.old held.old out.new held.new
        (answers_line answers good failed) result }
{
    let words = [
        Word::Text(b"answers"),
        Word::Total(answers),
        Word::Text(b"ok"),
        Word::Total(good),
        Word::Text(b"failed"),
        Word::Total(failed),
    ];
    put_line(b"", &words, held, out)
}
