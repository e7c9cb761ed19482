//! All plays of a case.

use crate::case::Case;
use crate::check::check;
use crate::failing::{Failing, Fails, Place};
use crate::play::{Left, Setup, play};
use crate::words::Call;
use crate::wrong::Wrong;
use std::alloc::Global;
use std::sync::Wait;
use std::thread::Threads;

/// The most calls that fail in turn.
const MOST_CALLS: u64 = 2_000;

/// What differs, and in which play.
#[derive(Drop)]
pub struct Finding<'a> {
    pub wrong: Wrong,
    /// What tells the call from the others of its case.
    pub with: &'a str,
    /// The call that failed in turn, or the attempt.
    pub nr: u64,
    /// The number of the status and the output, where it was played to its end.
    pub left: Option<(u8, Vec<u8>)>,
}

impl<'a> Finding<'a> {
    fn before(wrong: Wrong) -> Finding<'a> {
        Finding {
            wrong,
            with: "",
            nr: 0,
            left: None,
        }
    }

    // In the play of this call.
    fn of(wrong: Wrong, call: &Call<'a>, nr: u64, left: Option<Left>) -> Finding<'a> {
        Finding {
            wrong,
            with: call.with,
            nr,
            left: left.map(|left| (left.status, left.text)),
        }
    }
}

/// Plays a case, with each of its calls.
pub fn play_case<'a, R: Threads + Wait + Sync>(
    rt: &R,
    alloc: Global,
    case: &Case<'a>,
) -> Result<(), Finding<'a>> {
    let setup = match Setup::of(alloc, case) {
        Ok(setup) => setup,
        Err(wrong) => return Err(Finding::before(wrong)),
    };
    for call in &case.calls {
        match case.each {
            Some(place) => play_each(rt, alloc, case, &setup, call, place)?,
            None => play_once(rt, alloc, case, &setup, call)?,
        }
    }
    if case.calls.is_empty() {
        return Err(Finding::before(Wrong::Play { what: "no words" }));
    }
    Ok(())
}

// Plays a call until an attempt goes as wanted.
fn play_once<'a, R: Threads + Wait + Sync>(
    rt: &R,
    alloc: Global,
    case: &Case<'a>,
    setup: &Setup,
    call: &Call<'a>,
) -> Result<(), Finding<'a>> {
    let mut found = Ok(());
    for nr in 1..=case.attempts {
        found = match play_checked(rt, alloc, case, setup, call, &case.fails) {
            Ok(_) => return Ok(()),
            Err((wrong, left)) => Err(Finding::of(wrong, call, nr, left)),
        };
    }
    found
}

// Plays a call with each call of an object failing in turn, until none did.
fn play_each<'a, R: Threads + Wait + Sync>(
    rt: &R,
    alloc: Global,
    case: &Case<'a>,
    setup: &Setup,
    call: &Call<'a>,
    place: Place,
) -> Result<(), Finding<'a>> {
    for nr in 1..MOST_CALLS {
        match play_checked(rt, alloc, case, setup, call, &[Failing { place, nr }]) {
            Ok(true) => return Ok(()),
            Ok(false) => (),
            Err((wrong, left)) => return Err(Finding::of(wrong, call, nr, left)),
        }
    }
    let wrong = Wrong::Play {
        what: "no play without a failing call",
    };
    Err(Finding::of(wrong, call, MOST_CALLS, None))
}

// Plays a call once, and says whether it was a good play: one where no call failed in turn.
fn play_checked<R: Threads + Wait + Sync>(
    rt: &R,
    alloc: Global,
    case: &Case<'_>,
    setup: &Setup,
    call: &Call<'_>,
    failing: &[Failing],
) -> Result<bool, (Wrong, Option<Left>)> {
    let left = match fails_and_play(rt, alloc, case, setup, call, failing) {
        Ok(left) => left,
        Err(wrong) => return Err((wrong, None)),
    };
    let is_good = match case.each {
        Some(place) => !has_failed(&left, place),
        None => true,
    };
    match check(alloc, case, setup, call, &left, is_good) {
        Ok(()) => Ok(is_good),
        Err(wrong) => Err((wrong, Some(left))),
    }
}

fn fails_and_play<R: Threads + Wait + Sync>(
    rt: &R,
    alloc: Global,
    case: &Case<'_>,
    setup: &Setup,
    call: &Call<'_>,
    failing: &[Failing],
) -> Result<Left, Wrong> {
    let fails = Fails::of(alloc, failing)?;
    play(rt, alloc, case, setup, call, fails)
}

fn has_failed(left: &Left, place: Place) -> bool {
    match place {
        Place::Disk { .. } => left.outcome.disk.counts().faults > 0,
        Place::Source => left.source.faults > 0,
        Place::Sink => left.sink.faults > 0,
    }
}
