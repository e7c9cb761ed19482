//! What each session of a script is opened with.
ghost use Rattle.std.specs.Prelude.{◌≡◌, ◌≤◌, All, length, IfOk};
ghost use Rattle.script_model.specs.Limit.{is_record as sends};
ghost use Rattle.script_model.specs.Plans.{plan_of, plans_of};
ghost use Rattle.host_play.specs.Counts.{attach_count, call_count, is_attach_line as attaches};
ghost use Rattle.host_play.specs.Counts.{is_call as calls, record_count};
ghost use Rattle.host_play.specs.Opened.{spec_for, specs_from};

use host_block::{BlockSize, Oom, Range};
use host_session::SessionSpec;
use script_model::{Script, ScriptLine, SessionScript};
use script_played::moves_in;
use std::alloc::Global;

// How many ids a session gives at most.
const MOST_IDS: usize = 65535;

/// The spec of each session, on these ranges.
pub fn specs_for(
    alloc: Global,
    script: &Script,
    ranges: &[Range],
    size: BlockSize,
    depth: u32,
) -> Result<Vec<SessionSpec>, Oom>
    requires few { length (plans_of script.now) ≤ 16 }
    requires records { All (λ session. record_count session.lines.items ≤ 65535)
        script.now.sessions.items }
    requires ranges { length ranges.now ≡ length (plans_of script.now) }
    ensures { IfOk result
        (λ specs. specs.items ≡ specs_from 1 (plans_of script.now) ranges.now size depth) }
{
    let sessions = script.sessions.as_slice();
    let Ok(mut specs) = Vec::with_capacity(alloc, sessions.len()) else {
        return Err(Oom);
    };
    for k in 0..sessions.len() {
        specs.push_reserved(spec_for(k as u32 + 1, &sessions[k], ranges[k], size, depth));
    }
    Ok(specs)
}

// The spec of a session, with room for all that its lines can make. Its histories are kept for the
// report.
fn spec_for(
    number: u32,
    session: &SessionScript,
    part: Range,
    size: BlockSize,
    depth: u32,
) -> SessionSpec
    requires records { record_count session.now.lines.items ≤ 65535 }
    ensures { result ≡ spec_for number (plan_of session.now) part size depth }
{
    let lines = session.lines.as_slice();
    let records = record_count(lines);
    SessionSpec {
        number,
        part_number: session.part,
        part,
        size,
        depth,
        records: records as u32,
        attaches: attach_count(lines).min(MOST_IDS) as u32,
        events: call_count(lines) as u64 + records as u64,
        memory_room: moves_in(lines),
        keeps: true,
    }
}

// How many of these lines send a record.
fn record_count(lines: &[ScriptLine]) -> usize
    ensures { result ≡ record_count lines.now }
{
    lines.iter().filter(|line| is_record(line)).count()
}

// How many attach a buffer.
fn attach_count(lines: &[ScriptLine]) -> usize
    ensures { result ≡ attach_count lines.now }
{
    lines.iter().filter(|line| is_attach(line)).count()
}

// How many ask for a call.
fn call_count(lines: &[ScriptLine]) -> usize
    ensures count { result ≡ call_count lines.now }
    ensures most { result ≤ length lines.now }
{
    lines.iter().filter(|line| is_call(line)).count()
}

fn is_record(line: &ScriptLine) -> bool
    ensures { result ≡ sends line.now }
{
    matches!(line, ScriptLine::Send { .. })
}

fn is_attach(line: &ScriptLine) -> bool
    ensures { result ≡ attaches line.now }
{
    matches!(line, ScriptLine::Attach { .. })
}

fn is_call(line: &ScriptLine) -> bool
    ensures { result ≡ calls line.now }
{
    !matches!(line, ScriptLine::WaitAll | ScriptLine::WaitFor { .. })
}
