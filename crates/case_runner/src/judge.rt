//! What every play with a report has to keep.

use crate::play::{Left, Setup};
use crate::words::Call;
use crate::wrong::{Wrong, ensure};
use host_check::is_lawful_image;
use host_io::MemSink;
use host_report::{Report, write_report, write_summary};
use host_script::parse;
use script_check::plays;
use std::alloc::{AllocError, Global};

/// The most bytes of a text.
const ROOM: u32 = 100_000_000;

/// The most steps of a report that the plain judges judge, and the most records of a session.
const JUDGED_STEPS: u64 = 1_200;

const JUDGED_RECORDS: u64 = 200;

pub fn judge(alloc: Global, setup: &Setup, call: &Call<'_>, left: &Left) -> Result<(), Wrong> {
    let Some(report) = &left.outcome.report else {
        return Ok(());
    };
    ensure(
        is_told(alloc, call, report, left)?,
        "the output is no text of the report",
    )?;
    ensure(
        are_faults_told(report, left),
        "the disk's faults are not those of the steps",
    )?;
    if !is_judged(report) {
        return Ok(());
    }
    ensure(
        is_lawful_image(alloc, &setup.image, report)?,
        "the report isn't lawful",
    )?;
    ensure(
        is_played(alloc, setup, report)?,
        "the report isn't of the script",
    )
}

// Whether the output is the text that the words ask for, or where what it goes into failed a
// beginning of it.
fn is_told(alloc: Global, call: &Call<'_>, report: &Report, left: &Left) -> Result<bool, Wrong> {
    let mut sink = MemSink::new(alloc, ROOM, Vec::new(alloc))?;
    let is_whole = if call.has_word("load") {
        write_summary(report, &mut sink).is_ok()
    } else {
        write_report(report, call.has_word("--steps"), &mut sink).is_ok()
    };
    let is_front = sink.bytes().starts_with(&left.text);
    let is_all = sink.bytes().len() == left.text.len() || left.sink.faults > 0;
    Ok(is_whole && is_front && is_all)
}

// Whether a step is faulted just where a call of the disk failed. A copy never fails.
fn are_faults_told(report: &Report, left: &Left) -> bool {
    let has_faulted = report.steps.as_slice().iter().any(|step| step.faulted);
    let has_failed = left.disk().counts().faults > 0;
    has_faulted == has_failed
}

// Whether the plain judges come to an end soon.
fn is_judged(report: &Report) -> bool {
    let sessions = report.sessions.as_slice();
    let is_short = sessions
        .iter()
        .all(|session| session.taken.len() <= JUDGED_RECORDS);
    is_short && report.steps.len() <= JUDGED_STEPS
}

fn is_played(alloc: Global, setup: &Setup, report: &Report) -> Result<bool, AllocError> {
    match parse(alloc, &setup.script) {
        Ok(script) => plays(alloc, &script, report),
        Err(_) => Ok(false),
    }
}
