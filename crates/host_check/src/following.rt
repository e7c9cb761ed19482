//! Whether what was answered before a record was sent stands before what the record did.
ghost use Rattle.std.specs.Prelude.{◌≡◌, ◌<◌, ◌+◌, ◌&&◌, nat_lt, length, IfOk};
ghost use Rattle.std.specs.List.{list_all};
ghost use Rattle.host_model.specs.Lists.{all_before, below};
ghost use Rattle.host_check.specs.Had.{client_by, entries_at, follows_by, is_ordered_after};
ghost use Rattle.host_check.specs.Had.{is_ordered_by, precedes_by, steps_at};

use crate::order::{had_each, had_in_first, sending_of};
use buffer_check::{
    are_before, are_before_one, client_places, entry_places, first_are_before, step_places,
    told_count,
};
use host_block::Oom;
use host_model::{Event, MemEvent, Step, TakenRow, Verdict};
use host_record::Request;
use record_check::sent_count;
use std::alloc::Global;

fn both_before(
    alloc: Global,
    rs: &[Request],
    verdicts: &[Verdict],
    steps: &[Step],
    history: &[MemEvent],
    steps_r: &[usize],
    entries_r: &[usize],
    i: usize,
) -> Result<bool, Oom>
    ensures { IfOk result (λ b.
        b
        ≡ (all_before steps_r.now (steps_at steps.now i)
        && all_before entries_r.now (entries_at rs.now verdicts.now history.now i))) }
{
    let steps_i = step_places(alloc, steps, i)?;
    let entries_i = entry_places(alloc, rs, verdicts, history, i)?;
    Ok(are_before(steps_r, &steps_i) && are_before(entries_r, &entries_i))
}

fn follows(
    alloc: Global,
    rs: &[Request],
    verdicts: &[Verdict],
    log: &[Event],
    steps: &[Step],
    history: &[MemEvent],
    had: &[bool],
    steps_r: &[usize],
    entries_r: &[usize],
    i: usize,
) -> Result<bool, Oom>
    requires { length had.now ≡ length log.now + 1 }
    ensures { IfOk result (λ b.
        b
        ≡ follows_by rs.now verdicts.now log.now steps.now history.now had.now steps_r.now
        entries_r.now i) }
{
    if !had_in_first(had, sending_of(log, i)) {
        return Ok(true);
    }
    both_before(alloc, rs, verdicts, steps, history, steps_r, entries_r, i)
}

fn all_follow(
    alloc: Global,
    rs: &[Request],
    verdicts: &[Verdict],
    log: &[Event],
    steps: &[Step],
    history: &[MemEvent],
    had: &[bool],
    steps_r: &[usize],
    entries_r: &[usize],
    n: usize,
) -> Result<bool, Oom>
    requires { length had.now ≡ length log.now + 1 }
    ensures { IfOk result (λ b.
        b
        ≡ list_all (follows_by rs.now verdicts.now log.now steps.now history.now had.now steps_r.now
        entries_r.now) (below n)) }
{
    let mut all = true;
    for i in 0..n {
        let here = follows(
            alloc, rs, verdicts, log, steps, history, had, steps_r, entries_r, i,
        )?;
        all = all & here;
    }
    Ok(all)
}

fn has_entry(before: usize, after: usize) -> bool
    ensures { result ≡ nat_lt before after }
{
    before < after
}

fn precedes(
    alloc: Global,
    log: &[Event],
    history: &[MemEvent],
    had: &[bool],
    entries_r: &[usize],
    n: usize,
) -> Result<bool, Oom>
    requires had { length had.now ≡ length log.now + 1 }
    requires within { n < length log.now }
    ensures { IfOk result (λ b. b ≡ precedes_by log.now history.now had.now entries_r.now n) }
{
    let before = told_count(&log[..n]);
    let after = told_count(&log[..n + 1]);
    let places = client_places(alloc, history)?;
    if !had_in_first(had, n) {
        return Ok(true);
    }
    if !has_entry(before, after) {
        return Ok(true);
    }
    Ok(are_before_one(entries_r, &places, before))
}

fn all_precede(
    alloc: Global,
    log: &[Event],
    history: &[MemEvent],
    had: &[bool],
    entries_r: &[usize],
) -> Result<bool, Oom>
    requires had { length had.now ≡ length log.now + 1 }
    ensures { IfOk result (λ b.
        b
        ≡ list_all (precedes_by log.now history.now had.now entries_r.now)
        (below (length log.now))) }
{
    let mut all = true;
    for n in 0..log.len() {
        let here = precedes(alloc, log, history, had, entries_r, n)?;
        all = all & here;
    }
    Ok(all)
}

fn is_ordered_after(
    alloc: Global,
    rs: &[Request],
    verdicts: &[Verdict],
    log: &[Event],
    steps: &[Step],
    history: &[MemEvent],
    had: &[bool],
    steps_r: &[usize],
    entries_r: &[usize],
) -> Result<bool, Oom>
    requires had { length had.now ≡ length log.now + 1 }
    ensures { IfOk result (λ b.
        b
        ≡ is_ordered_after rs.now verdicts.now log.now steps.now history.now had.now steps_r.now
        entries_r.now) }
{
    let n = sent_count(log);
    let follow = all_follow(
        alloc, rs, verdicts, log, steps, history, had, steps_r, entries_r, n,
    )?;
    let precede = all_precede(alloc, log, history, had, entries_r)?;
    Ok(follow & precede)
}

// Whether the order rule holds for the answer to record r.
fn is_ordered(
    alloc: Global,
    rs: &[Request],
    verdicts: &[Verdict],
    log: &[Event],
    rows: &[TakenRow],
    steps: &[Step],
    history: &[MemEvent],
    r: usize,
) -> Result<bool, Oom>
    ensures { IfOk result
        (λ b. b ≡ is_ordered_by rs.now verdicts.now log.now rows.now steps.now history.now r) }
{
    let Ok(had) = had_each(alloc, log, rows, r) else {
        return Err(Oom);
    };
    let steps_r = step_places(alloc, steps, r)?;
    let entries_r = entry_places(alloc, rs, verdicts, history, r)?;
    let ordered = is_ordered_after(
        alloc, rs, verdicts, log, steps, history, &had, &steps_r, &entries_r,
    )?;
    Ok(ordered)
}

/// Whether it holds for the answers to the first n records.
pub fn all_ordered(
    alloc: Global,
    rs: &[Request],
    verdicts: &[Verdict],
    log: &[Event],
    rows: &[TakenRow],
    steps: &[Step],
    history: &[MemEvent],
    n: usize,
) -> Result<bool, Oom>
    ensures { IfOk result (λ b.
        b
        ≡ list_all (is_ordered_by rs.now verdicts.now log.now rows.now steps.now history.now)
        (below n)) }
{
    let mut all = true;
    for r in 0..n {
        let here = is_ordered(alloc, rs, verdicts, log, rows, steps, history, r)?;
        all = all & here;
    }
    Ok(all)
}

// Whether what the client did before it sent record i stands before what that record did.
fn follows_client(
    alloc: Global,
    rs: &[Request],
    verdicts: &[Verdict],
    log: &[Event],
    history: &[MemEvent],
    i: usize,
) -> Result<bool, Oom>
    ensures { IfOk result (λ b. b ≡ client_by rs.now verdicts.now log.now history.now i) }
{
    let told = told_count(&log[..sending_of(log, i)]);
    let places = client_places(alloc, history)?;
    let entries_i = entry_places(alloc, rs, verdicts, history, i)?;
    Ok(first_are_before(&places, told, &entries_i))
}

/// Whether it does for the first n records.
pub fn all_follow_client(
    alloc: Global,
    rs: &[Request],
    verdicts: &[Verdict],
    log: &[Event],
    history: &[MemEvent],
    n: usize,
) -> Result<bool, Oom>
    ensures { IfOk result
        (λ b. b ≡ list_all (client_by rs.now verdicts.now log.now history.now) (below n)) }
{
    let mut all = true;
    for i in 0..n {
        let here = follows_client(alloc, rs, verdicts, log, history, i)?;
        all = all & here;
    }
    Ok(all)
}
