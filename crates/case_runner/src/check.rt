//! Whether a play went as its case wants.

use crate::case::Case;
use crate::images::look_at_images;
use crate::judge::judge;
use crate::play::{Left, Setup};
use crate::text::{count_of, has_each, is_text, line_count};
use crate::wanted::{Count, Wanted, WantedLine};
use crate::words::Call;
use crate::wrong::Wrong;
use std::alloc::{AllocError, Global};

/// Looks at all that a play left. In a play that is not the good one a call was made to fail in
/// turn.
pub fn check(
    alloc: Global,
    case: &Case<'_>,
    setup: &Setup,
    call: &Call<'_>,
    left: &Left,
    is_good: bool,
) -> Result<(), Wrong> {
    if let Some(status) = call.status {
        if status == u64::from(left.status) {
            return Ok(());
        }
        return Err(Wrong::Status {
            status: left.status,
        });
    }
    for line in &case.wanted {
        look_at_line(alloc, left, line, is_good)?;
    }
    judge(alloc, setup, call, left)?;
    look_at_images(alloc, case, setup, left, is_good)
}

fn look_at_line(
    alloc: Global,
    left: &Left,
    line: &WantedLine<'_>,
    is_good: bool,
) -> Result<(), Wrong> {
    let is_met = match &line.wanted {
        Wanted::Status { numbers } => numbers.contains(&u64::from(left.status)),
        other => !is_good || is_met(alloc, left, other)?,
    };
    if is_met {
        return Ok(());
    }
    Err(Wrong::Line {
        line: line.line,
        what: "isn't so",
    })
}

fn is_met(alloc: Global, left: &Left, wanted: &Wanted<'_>) -> Result<bool, AllocError> {
    match wanted {
        Wanted::Output { lines } => is_text(alloc, &left.text, lines),
        Wanted::Has { lines, count } => has(alloc, left, lines, *count),
        Wanted::HasEach { lines, count } => has_each(alloc, &left.text, lines, *count),
        Wanted::HasNot { lines } => Ok(count_of(alloc, &left.text, lines)? == 0),
        Wanted::HasNone => Ok(left.text.is_empty()),
        Wanted::LineCount { count } => Ok(line_count(&left.text) == *count),
        Wanted::Counted { count, number } => Ok(counted(left, *count) == *number),
        Wanted::CountedAtLeast { count, number } => Ok(counted(left, *count) >= *number),
        Wanted::Opened => Ok(left.was_opened),
        _ => Ok(true),
    }
}

fn has(
    alloc: Global,
    left: &Left,
    lines: &[&str],
    wanted: Option<u64>,
) -> Result<bool, AllocError> {
    let count = count_of(alloc, &left.text, lines)?;
    Ok(match wanted {
        Some(wanted) => count == wanted,
        None => count > 0,
    })
}

fn counted(left: &Left, count: Count) -> u64 {
    let disk = left.outcome.disk.counts();
    match count {
        Count::DiskFaults => disk.faults,
        Count::DiskReads => disk.reads,
        Count::DiskWrites => disk.writes,
        Count::DiskSyncs => disk.syncs,
        Count::SourceFaults => left.source.faults,
        Count::SourceCalls => left.source.calls,
        Count::SinkFaults => left.sink.faults,
        Count::SinkCalls => left.sink.calls,
    }
}
