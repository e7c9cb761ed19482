// The text of a script.
ghost use Rattle.std.specs.Prelude.{◌≡◌, flat_map};
ghost use Rattle.host_io.specs.Causes.{HasCause};
ghost use Rattle.host_text.specs.Printed.{printed};
ghost use Rattle.host_text.specs.Writing.{PutsHeldText, Writes};
ghost use Rattle.script_model.specs.Plans.{plan_of, plans_of};
ghost use Rattle.script_model.specs.Print.{end_word, line_text, script_text, session_script_text};

use crate::record::write_record;
use host_io::{Sink, SinkFailed};
use host_record::Finish;
use host_text::{Held, Word, put_line};
use script_model::{Script, ScriptLine, SessionScript};

/// Puts the text of a script: one space between words, no comments, and an end for each session.
pub fn print_script<K: Sink>(script: &Script, out: &mut K) -> Result<(), SinkFailed>
    ensures tells { K.tells out.new ≡ K.tells out.old }
    ensures text { Writes (K.tells out.old) (K.appended out.old) (K.appended out.new)
        (script_text (plans_of script.now)) result }
    ensures cause { HasCause (K.faults out.old) (K.faults out.new) result }
{
    let mut held = Held::new();
    write_script(script, &mut held, out)?;
    held.send(out)
}

fn write_script<K: Sink>(script: &Script, held: &mut Held, out: &mut K) -> Result<(), SinkFailed>
    ensures { PutsHeldText K.tells K.faults K.appended out.old held.old out.new held.new
        (script_text (plans_of script.now)) result }
{
    write_sessions(script.sessions.as_slice(), held, out)
}

fn write_sessions<K: Sink>(
    sessions: &[SessionScript],
    held: &mut Held,
    out: &mut K,
) -> Result<(), SinkFailed>
    ensures { PutsHeldText K.tells K.faults K.appended out.old held.old out.new held.new
        (flat_map (λ s. session_script_text (plan_of s)) sessions.now) result }
{
    for session in sessions {
        write_session(session, held, out)?;
    }
    Ok(())
}

fn write_session<K: Sink>(
    session: &SessionScript,
    held: &mut Held,
    out: &mut K,
) -> Result<(), SinkFailed>
    ensures { PutsHeldText K.tells K.faults K.appended out.old held.old out.new held.new
        (session_script_text (plan_of session.now)) result }
{
    let part = Word::Number(session.part as u64);
    put_line(b"", &[Word::Text(b"session"), part], held, out)?;
    write_lines(session.lines.as_slice(), held, out)?;
    put_line(b"", &[word_of_finish(session.finish)], held, out)
}

fn word_of_finish<'a>(finish: Finish) -> Word<'a>
    ensures { printed result ≡ end_word finish }
{
    match finish {
        Finish::Drain => Word::Text(b"drain"),
        Finish::Abort => Word::Text(b"abort"),
    }
}

fn write_lines<K: Sink>(
    lines: &[ScriptLine],
    held: &mut Held,
    out: &mut K,
) -> Result<(), SinkFailed>
    ensures { PutsHeldText K.tells K.faults K.appended out.old held.old out.new held.new
        (flat_map line_text lines.now) result }
{
    for line in lines {
        write_line(line, held, out)?;
    }
    Ok(())
}

fn write_line<K: Sink>(line: &ScriptLine, held: &mut Held, out: &mut K) -> Result<(), SinkFailed>
    ensures { PutsHeldText K.tells K.faults K.appended out.old held.old out.new held.new
        (line_text line.now) result }
{
    match line {
        ScriptLine::Attach { pages } => {
            let pages = Word::Number(*pages as u64);
            put_line(b"", &[Word::Text(b"attach"), pages], held, out)
        }
        ScriptLine::Fill {
            id,
            block,
            count,
            byte,
        } => {
            let words = [
                Word::Text(b"fill"),
                Word::Number(*id as u64),
                Word::Number(*block as u64),
                Word::Number(*count as u64),
                Word::Byte(*byte),
            ];
            put_line(b"", &words, held, out)
        }
        ScriptLine::Show { id, block, count } => {
            let words = [
                Word::Text(b"show"),
                Word::Number(*id as u64),
                Word::Number(*block as u64),
                Word::Number(*count as u64),
            ];
            put_line(b"", &words, held, out)
        }
        ScriptLine::Send { bytes } => write_record(bytes, held, out),
        ScriptLine::WaitAll => put_line(b"", &[Word::Text(b"wait")], held, out),
        ScriptLine::WaitFor { total } => {
            let total = Word::Number(*total as u64);
            put_line(b"", &[Word::Text(b"wait"), total], held, out)
        }
    }
}
