//! A run that is refused.
ghost use Rattle.std.specs.Prelude.{◌≡◌, None};
ghost use Rattle.host_io.specs.Causes.{HasCause};
ghost use Rattle.host_run.specs.Refusals.{refusal_line, refused_status, start_status};
ghost use Rattle.host_run.specs.Seen.{sink_seen};
ghost use Rattle.host_run.specs.Statuses.{HasRunReport};
ghost use Rattle.host_run.specs.Writes.{PutsText};
ghost use Rattle.host_run.specs.declared.status.RunStatus.TheVariants.{BadScript, NoPart, TooLarge};
ghost use Rattle.host_text.specs.Printed.{all_printed, printed};
ghost use Rattle.host_text.specs.Words.{line};
ghost use Rattle.host_text.specs.Writing.{Writes};
ghost use Rattle.script_model.specs.Causes.{cause_word};

use crate::outcome::Outcome;
use crate::put::put;
use crate::refusal::Refusal;
use host_io::{MemDisk, Sink, SinkFailed};
use host_script::ScriptCause;
use host_start::{Limit, StartError};
use host_text::{Held, Word, put_line};

/// Puts the line of a refusal, and hands out the copy on which its cause was found. The status
/// stays whether or not `out` takes the line.
pub fn refuse_on<D, K: Sink>(
    refusal: Refusal,
    dry: Option<MemDisk>,
    disk: D,
    out: &mut K,
) -> Outcome<D>
    ensures status { result.status ≡ refused_status refusal }
    ensures disk { result.disk ≡ disk }
    ensures dry { result.dry ≡ dry }
    ensures no_report { result.report ≡ None }
    ensures not_served { result.served ≡ None }
    ensures report { HasRunReport result.status result.report }
    ensures line { PutsText (sink_seen K.Sink out.old) (sink_seen K.Sink out.new)
        (refusal_line (refused_status refusal)) }
{
    let _ = put_refusal(refusal, out);
    Outcome {
        status: refusal.status(),
        disk,
        dry,
        report: None,
        served: None,
    }
}

/// The same for a refusal without a copy.
pub fn refuse<D, K: Sink>(refusal: Refusal, disk: D, out: &mut K) -> Outcome<D>
    ensures status { result.status ≡ refused_status refusal }
    ensures disk { result.disk ≡ disk }
    ensures no_dry { result.dry ≡ None }
    ensures no_report { result.report ≡ None }
    ensures not_served { result.served ≡ None }
    ensures report { HasRunReport result.status result.report }
    ensures line { PutsText (sink_seen K.Sink out.old) (sink_seen K.Sink out.new)
        (refusal_line (refused_status refusal)) }
{
    refuse_on(refusal, None, disk, out)
}

// Puts the line of a refusal.
fn put_refusal<K: Sink>(refusal: Refusal, out: &mut K) -> Result<(), SinkFailed>
    ensures text { Writes (K.tells out.old) (K.appended out.old) (K.appended out.new)
        (refusal_line (refused_status refusal)) result }
    ensures cause { HasCause (K.faults out.old) (K.faults out.new) result }
{
    match refusal {
        Refusal::Words => put(out, b"refused 2 words\n"),
        Refusal::NoStart { error } => put_error(error, out),
    }
}

fn put_error<K: Sink>(error: StartError, out: &mut K) -> Result<(), SinkFailed>
    ensures text { Writes (K.tells out.old) (K.appended out.old) (K.appended out.new)
        (refusal_line (start_status error)) result }
    ensures cause { HasCause (K.faults out.old) (K.faults out.new) result }
{
    match error {
        StartError::Source => put(out, b"refused 6 script unread\n"),
        StartError::BadScript { line, cause } => put_bad_line(line, cause, out),
        StartError::TooLarge { what } => put(out, limit_line(what)),
        StartError::Disk => put(out, b"refused 5 disk\n"),
        StartError::NoTable => put(out, b"refused 3 no table\n"),
        StartError::NoPart { session, part } => put_no_part(session, part, out),
        StartError::Oom => put(out, b"refused 8 memory\n"),
    }
}

fn limit_line(what: Limit) -> &'static [u8]
    ensures { result.now ≡ refusal_line (TooLarge what) }
{
    match what {
        Limit::ScriptBytes => b"refused 9 script\n",
        Limit::Sessions => b"refused 9 sessions\n",
        Limit::Records => b"refused 9 records\n",
        Limit::Moved => b"refused 9 moved\n",
        Limit::Blocks => b"refused 9 blocks\n",
        Limit::Table => b"refused 9 table\n",
    }
}

// Puts the line that names the first bad line of a script, and its cause.
fn put_bad_line<K: Sink>(line: u64, cause: ScriptCause, out: &mut K) -> Result<(), SinkFailed>
    ensures text { Writes (K.tells out.old) (K.appended out.old) (K.appended out.new)
        (refusal_line (BadScript line cause)) result }
    ensures cause { HasCause (K.faults out.old) (K.faults out.new) result }
{
    let words = [
        Word::Text(b"refused"),
        Word::Text(b"4"),
        Word::Text(b"line"),
        Word::Number(line),
        word_of(cause),
    ];
    put_words(&words, out)
}

fn word_of<'a>(cause: ScriptCause) -> Word<'a>
    ensures { printed result ≡ cause_word cause }
{
    Word::Text(cause.word().as_bytes())
}

// Puts the line that names the first session whose partition isn't served.
fn put_no_part<K: Sink>(session: u32, part: u32, out: &mut K) -> Result<(), SinkFailed>
    ensures text { Writes (K.tells out.old) (K.appended out.old) (K.appended out.new)
        (refusal_line (NoPart session part)) result }
    ensures cause { HasCause (K.faults out.old) (K.faults out.new) result }
{
    let words = [
        Word::Text(b"refused"),
        Word::Text(b"10"),
        Word::Text(b"session"),
        Word::Number(u64::from(session)),
        Word::Text(b"part"),
        Word::Number(u64::from(part)),
    ];
    put_words(&words, out)
}

// Puts one line of words.
fn put_words<K: Sink>(words: &[Word<'_>], out: &mut K) -> Result<(), SinkFailed>
    ensures text { Writes (K.tells out.old) (K.appended out.old) (K.appended out.new)
        (line (all_printed words.now)) result }
    ensures cause { HasCause (K.faults out.old) (K.faults out.new) result }
{
    let mut held = Held::new();
    put_line(b"", words, &mut held, out)?;
    held.send(out)
}
