// The text of a report.
ghost use Rattle.std.specs.Prelude.{◌≡◌};
ghost use Rattle.host_gpt.specs.declared.which.Which.{Which};
ghost use Rattle.host_io.specs.Causes.{HasCause};
ghost use Rattle.host_text.specs.Printed.{printed};
ghost use Rattle.host_report.specs.Text.{closing_word, end_text, head_text, report_text};
ghost use Rattle.host_report.specs.Text.{steps_line, steps_text, which_word};
ghost use Rattle.host_text.specs.Writing.{PutsHeldText, Writes};

use super::session::write_sessions;
use super::step::write_steps;
use crate::closing::Closing;
use crate::report::Report;
use host_gpt::Which;
use host_io::{Sink, SinkFailed};
use host_text::{Held, Word, put_line};

/// Puts the text of a report, with rows, entries and steps or without.
pub fn write_report<K: Sink>(report: &Report, steps: bool, out: &mut K) -> Result<(), SinkFailed>
    ensures tells { K.tells out.new ≡ K.tells out.old }
    ensures text { Writes (K.tells out.old) (K.appended out.old) (K.appended out.new)
        (report_text report.now steps) result }
    ensures cause { HasCause (K.faults out.old) (K.faults out.new) result }
{
    let mut held = Held::new();
    write_text(report, steps, &mut held, out)?;
    held.send(out)
}

fn write_text<K: Sink>(
    report: &Report,
    steps: bool,
    held: &mut Held,
    out: &mut K,
) -> Result<(), SinkFailed>
    ensures { PutsHeldText K.tells K.faults K.appended out.old held.old out.new held.new
        (report_text report.now steps) result }
{
    write_head(report, held, out)?;
    write_sessions(report.sessions.as_slice(), report.size, steps, held, out)?;
    write_all_steps(report, steps, held, out)?;
    write_end(report.closing, held, out)
}

fn write_head<K: Sink>(report: &Report, held: &mut Held, out: &mut K) -> Result<(), SinkFailed>
    ensures { PutsHeldText K.tells K.faults K.appended out.old held.old out.new held.new
        (head_text report.now) result }
{
    let image = [
        Word::Text(b"image"),
        Word::Number(report.blocks),
        Word::Text(b"of"),
        Word::Number(report.size.bytes() as u64),
    ];
    put_line(b"", &image, held, out)?;
    put_line(
        b"",
        &[Word::Text(b"table"), word_of_which(report.which)],
        held,
        out,
    )
}

fn word_of_which<'a>(which: Which) -> Word<'a>
    ensures { printed result ≡ which_word which }
{
    match which {
        Which::Primary => Word::Text(b"primary"),
        Which::Backup => Word::Text(b"backup"),
    }
}

fn write_all_steps<K: Sink>(
    report: &Report,
    steps: bool,
    held: &mut Held,
    out: &mut K,
) -> Result<(), SinkFailed>
    ensures { PutsHeldText K.tells K.faults K.appended out.old held.old out.new held.new
        (steps_text steps report.now) result }
{
    write_count(report.steps.len(), held, out)?;
    if steps {
        write_steps(report.steps.as_slice(), held, out)
    } else {
        Ok(())
    }
}

/// Puts the line with the number of steps.
pub fn write_count<K: Sink>(steps: u64, held: &mut Held, out: &mut K) -> Result<(), SinkFailed>
    ensures { PutsHeldText K.tells K.faults K.appended out.old held.old out.new held.new
        (steps_line steps) result }
{
    put_line(b"", &[Word::Text(b"steps"), Word::Number(steps)], held, out)
}

/// Puts the last two lines.
pub fn write_end<K: Sink>(closing: Closing, held: &mut Held, out: &mut K) -> Result<(), SinkFailed>
    ensures { PutsHeldText K.tells K.faults K.appended out.old held.old out.new held.new
        (end_text closing) result }
{
    put_line(
        b"",
        &[Word::Text(b"closing"), word_of_closing(closing)],
        held,
        out,
    )?;
    put_line(b"", &[Word::Text(b"end")], held, out)
}

fn word_of_closing<'a>(closing: Closing) -> Word<'a>
    ensures { printed result ≡ closing_word closing }
{
    match closing {
        Closing::Good => Word::Text(b"ok"),
        Closing::Fault => Word::Text(b"fault"),
        Closing::Cut => Word::Text(b"cut"),
        Closing::NoMemory => Word::Text(b"no-memory"),
    }
}
