//! Whether fills and shows were done, or not, as their buffers stood.
ghost use Rattle.std.specs.Prelude.{◌≡◌, ◌||◌, not, nat_lt, if◌then◌else◌, IfOk};
ghost use Rattle.std.specs.List.{list_any};
ghost use Rattle.host_model.specs.Buffers.{is_in_buffer};
ghost use Rattle.host_model.specs.Lists.{all_with_before};
ghost use Rattle.host_model.specs.Verdict.{is_within};
ghost use Rattle.buffer_check.specs.Owners.{is_answer_by, is_used_by, next_place, was_closed_by};
ghost use Rattle.buffer_check.specs.Owners.{was_released_by};

use crate::places::{client_places, release_places};
use crate::told::told_count;
use host_block::Oom;
use host_model::{Event, MemEvent, Verdict};
use host_record::Request;
use record_check::{closing_record, pages_in, sent_count};
use std::alloc::Global;

fn lies_within(block: u32, count: u32, pages: u32) -> bool
    ensures { result ≡ is_within block count pages }
{
    count <= pages && block <= pages - count
}

// Whether these events gave the buffer, with so many pages from this one on.
fn fits(before: &[Event], v: u16, block: u32, count: u32) -> bool
    ensures { result ≡ is_in_buffer before.now v block count }
{
    match pages_in(before, v) {
        Some(pages) => lies_within(block, count, pages),
        None => false,
    }
}

// Whether the record that closes the buffer was sent in these events, and is one of the first n.
fn was_closed(closing: Option<usize>, n: usize, before: &[Event]) -> bool
    ensures { result ≡ was_closed_by closing n before.now }
{
    match closing {
        Some(i) => i < sent_count(before) && i < n,
        None => false,
    }
}

// Where the client's next entry after these events stands.
fn next_place_of(alloc: Global, history: &[MemEvent], before: &[Event]) -> Result<usize, Oom>
    ensures { IfOk result (λ n. n ≡ next_place history.now before.now) }
{
    let places = client_places(alloc, history)?;
    let told = told_count(before);
    Ok(places.get(told).copied().unwrap_or(history.len()))
}

fn any_is_before(places: &[usize], place: usize) -> bool
    ensures { result ≡ list_any (λ q. nat_lt q place) places.now }
{
    places.iter().any(|q| *q < place)
}

fn was_released(
    alloc: Global,
    closing: Option<usize>,
    n: usize,
    history: &[MemEvent],
    before: &[Event],
    v: u16,
) -> Result<bool, Oom>
    ensures { IfOk result (λ b. b ≡ was_released_by closing n history.now before.now v) }
{
    let place = next_place_of(alloc, history, before)?;
    let releases = release_places(alloc, history, v)?;
    Ok(was_closed(closing, n, before) && any_is_before(&releases, place))
}

fn is_answer(
    alloc: Global,
    closing: Option<usize>,
    n: usize,
    history: &[MemEvent],
    before: &[Event],
    v: u16,
    inside: bool,
    done: bool,
) -> Result<bool, Oom>
    ensures { IfOk result (λ b.
        b
        ≡ (if done then inside
        else not inside || was_released_by closing n history.now before.now v)) }
{
    if done {
        return Ok(inside);
    }
    let released = was_released(alloc, closing, n, history, before, v)?;
    Ok(!inside || released)
}

// The same by the lists of a session.
fn is_answer_here(
    alloc: Global,
    rs: &[Request],
    verdicts: &[Verdict],
    n: usize,
    history: &[MemEvent],
    before: &[Event],
    v: u16,
    block: u32,
    count: u32,
    done: bool,
) -> Result<bool, Oom>
    ensures { IfOk result
        (λ b. b ≡ is_answer_by rs.now verdicts.now n history.now before.now v block count done) }
{
    let closing = closing_record(v, rs, verdicts);
    let inside = fits(before, v, block, count);
    let right = is_answer(alloc, closing, n, history, before, v, inside, done)?;
    Ok(right)
}

// Whether a fill or show after these events was rightly done, or rightly not.
fn is_used_rightly(
    alloc: Global,
    rs: &[Request],
    verdicts: &[Verdict],
    n: usize,
    history: &[MemEvent],
    before: &[Event],
    event: &Event,
) -> Result<bool, Oom>
    ensures { IfOk result
        (λ b. b ≡ is_used_by rs.now verdicts.now n history.now before.now event.now) }
{
    match event {
        Event::Filled {
            id,
            block,
            count,
            done,
            ..
        } => {
            is_answer_here(
                alloc, rs, verdicts, n, history, before, *id, *block, *count, *done,
            )
        }
        Event::Shown {
            id,
            block,
            count,
            done,
            ..
        } => {
            is_answer_here(
                alloc, rs, verdicts, n, history, before, *id, *block, *count, *done,
            )
        }
        _ => Ok(true),
    }
}

/// Whether each fill and show was done, or not, as its buffer stood, where the first n records were
/// taken.
pub fn all_used_rightly(
    alloc: Global,
    rs: &[Request],
    verdicts: &[Verdict],
    n: usize,
    history: &[MemEvent],
    log: &[Event],
) -> Result<bool, Oom>
    ensures { IfOk result
        (λ b. b ≡ all_with_before (is_used_by rs.now verdicts.now n history.now) log.now) }
{
    let mut all = true;
    for i in 0..log.len() {
        let here = is_used_rightly(alloc, rs, verdicts, n, history, &log[..i], &log[i])?;
        all = all & here;
    }
    Ok(all)
}
