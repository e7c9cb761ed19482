//! When answers were had.
ghost use Rattle.std.specs.Prelude.{◌≡◌, ◌<◌, ◌≤◌, ◌+◌, length, map, take, IfOk};
ghost use Rattle.std.specs.List.{list_any};
ghost use Rattle.host_model.specs.Log.{requests, sending};
ghost use Rattle.host_model.specs.Lists.{below};
ghost use Rattle.host_check.specs.Had.{had_by, is_received_by};

use host_model::{Event, TakenRow};
use host_record::Request;
use record_check::{
    answer_to, answers_due, answers_received, owing_record_of, requests_sent, times,
};
use std::alloc::{AllocError, Global};

/// How many events stand before record i was sent.
pub fn sending_of(log: &[Event], i: usize) -> usize
    ensures place { result ≡ sending log.now i }
    ensures within { result ≤ length log.now }
{
    match log {
        [] => 0,
        [Event::Sent { .. }, rest @ ..] => {
            if i == 0 {
                0
            } else {
                sending_of(rest, i - 1) + 1
            }
        }
        [_, rest @ ..] => sending_of(rest, i) + 1,
    }
}

// Whether the answer of owing record o was received as often as it is due.
fn was_received(
    alloc: Global,
    rs: &[Request],
    log: &[Event],
    rows: &[TakenRow],
    o: usize,
) -> Result<bool, AllocError>
    requires { o < length rs.now }
    ensures { IfOk result (λ b. b ≡ is_received_by rs.now log.now rows.now o) }
{
    let bytes = answer_to(alloc, rs, rows, o)?;
    let received = answers_received(alloc, log)?;
    let due = answers_due(alloc, rs, rows)?;
    Ok(times(&bytes, &received) == times(&bytes, &due))
}

fn was_had_by(
    alloc: Global,
    rs: &[Request],
    log: &[Event],
    rows: &[TakenRow],
    r: usize,
) -> Result<bool, AllocError>
    ensures { IfOk result (λ b. b ≡ had_by rs.now log.now rows.now r) }
{
    match owing_record_of(rs, r) {
        Some(o) => {
            if o < rows.len() {
                was_received(alloc, rs, log, rows, o)
            } else {
                Ok(false)
            }
        }
        None => Ok(false),
    }
}

// Whether the answer to record r was had in these events.
fn was_had(alloc: Global, log: &[Event], rows: &[TakenRow], r: usize) -> Result<bool, AllocError>
    ensures { IfOk result (λ b. b ≡ had_by (requests log.now) log.now rows.now r) }
{
    let rs = requests_sent(alloc, log)?;
    let had = was_had_by(alloc, &rs, log, rows, r)?;
    Ok(had)
}

/// Whether it was had in each prefix of the log, the empty one first.
pub fn had_each(
    alloc: Global,
    log: &[Event],
    rows: &[TakenRow],
    r: usize,
) -> Result<Vec<bool>, AllocError>
    ensures { IfOk result (λ v.
        v.items
        ≡ map (λ m. had_by (requests (take m log.now)) (take m log.now) rows.now r)
        (below (length log.now + 1))) }
{
    let mut list = Vec::new(alloc);
    for m in 0..log.len() {
        let had = was_had(alloc, &log[..m], rows, r)?;
        list.push(had)?;
    }
    let had = was_had(alloc, log, rows, r)?;
    list.push(had)?;
    Ok(list)
}

/// Whether it was had in some of the first n events.
pub fn had_in_first(had: &[bool], n: usize) -> bool
    requires { n < length had.now }
    ensures { result ≡ list_any (λ b. b) (take (n + 1) had.now) }
{
    had.iter().take(n + 1).any(|b| *b)
}
