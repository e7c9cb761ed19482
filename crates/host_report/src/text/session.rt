// The lines of a session.
ghost use Rattle.std.specs.Prelude.{true, flat_map};
ghost use Rattle.host_report.specs.LogText.{event_text};
ghost use Rattle.host_report.specs.Text.{session_line, session_text, taken_text};
ghost use Rattle.host_text.specs.Writing.{PutsHeldText};

use super::entry::write_entries;
use super::event::write_event;
use super::row::write_rows;
use crate::session::SessionReport;
use host_block::BlockSize;
use host_io::{Sink, SinkFailed};
use host_model::Event;
use host_text::{Held, Word, put_line};

/// Puts the lines of each session; blocks have this size. Rows and entries only with `steps`.
pub fn write_sessions<K: Sink>(
    sessions: &[SessionReport],
    size: BlockSize,
    steps: bool,
    held: &mut Held,
    out: &mut K,
) -> Result<(), SinkFailed>
    ensures { PutsHeldText K.tells K.faults K.appended out.old held.old out.new held.new
        (flat_map (session_text size steps) sessions.now) result }
{
    for session in sessions {
        write_session(session, size, steps, held, out)?;
    }
    Ok(())
}

fn write_session<K: Sink>(
    session: &SessionReport,
    size: BlockSize,
    steps: bool,
    held: &mut Held,
    out: &mut K,
) -> Result<(), SinkFailed>
    ensures { PutsHeldText K.tells K.faults K.appended out.old held.old out.new held.new
        (session_text size steps session.now) result }
{
    write_session_line(session, held, out)?;
    write_log(session.log.as_slice(), size, held, out)?;
    if steps {
        write_taken(session, held, out)
    } else {
        Ok(())
    }
}

fn write_session_line<K: Sink>(
    session: &SessionReport,
    held: &mut Held,
    out: &mut K,
) -> Result<(), SinkFailed>
    ensures { PutsHeldText K.tells K.faults K.appended out.old held.old out.new held.new
        (session_line session.now) result }
{
    let words = [
        Word::Text(b"session"),
        Word::Number(session.number as u64),
        Word::Text(b"part"),
        Word::Number(session.part as u64),
        Word::Text(b"first"),
        Word::Number(session.range.first),
        Word::Text(b"count"),
        Word::Number(session.range.count),
    ];
    put_line(b"", &words, held, out)
}

fn write_log<K: Sink>(
    log: &[Event],
    size: BlockSize,
    held: &mut Held,
    out: &mut K,
) -> Result<(), SinkFailed>
    ensures { PutsHeldText K.tells K.faults K.appended out.old held.old out.new held.new
        (flat_map (event_text size) log.now) result }
{
    for event in log {
        write_event(event, size, held, out)?;
    }
    Ok(())
}

fn write_taken<K: Sink>(
    session: &SessionReport,
    held: &mut Held,
    out: &mut K,
) -> Result<(), SinkFailed>
    ensures { PutsHeldText K.tells K.faults K.appended out.old held.old out.new held.new
        (taken_text true session.now) result }
{
    write_rows(session.taken.as_slice(), held, out)?;
    write_entries(session.memory.as_slice(), held, out)
}
