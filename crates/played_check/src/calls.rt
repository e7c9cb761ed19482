//! Whether a client's calls are those that it was asked for.
ghost use Rattle.std.specs.Prelude.{◌≡◌, [], not, filter, map, IfOk};
ghost use Rattle.std.specs.Str.{bytes_eq};
ghost use Rattle.host_model.specs.Lists.{is_nil};
ghost use Rattle.host_report.specs.Played.{are_calls_for, attach, calls_asked, calls_in, fill};
ghost use Rattle.host_report.specs.Played.{is_call_for, is_closed_error, is_end_of, is_received};
ghost use Rattle.host_report.specs.Played.{is_wait, send, show};
ghost use Rattle.played_check.specs.Plans.{played_ask};

use crate::plan::Ask;
use host_model::{AttachError, Event};
use host_record::Finish;
use std::alloc::{AllocError, Global};

fn is_answer(event: &Event) -> bool
    ensures { result ≡ is_received event.now }
{
    match event {
        Event::Received { .. } => true,
        _ => false,
    }
}

/// Whether it is a wait.
pub fn waits(ask: &Ask) -> bool
    ensures { result ≡ is_wait (played_ask ask.now) }
{
    match ask {
        Ask::WaitAll => true,
        Ask::WaitFor { .. } => true,
        _ => false,
    }
}

// What is asked but for the waits.
fn calls_of(alloc: Global, asks: &[Ask]) -> Result<Vec<Ask>, AllocError>
    ensures { IfOk result (λ v. v.items ≡ filter (λ a. not (is_wait (played_ask a))) asks.now) }
{
    asks.iter()
        .copied()
        .filter(|ask| !waits(ask))
        .collect(alloc)
}

fn is_closed(cause: AttachError) -> bool
    ensures { result ≡ is_closed_error cause }
{
    match cause {
        AttachError::Closed => true,
        _ => false,
    }
}

fn attaches(event: &Event, pages: u32) -> bool
    ensures { result ≡ is_call_for (attach pages) event.now }
{
    match event {
        Event::Attached { pages: p, .. } => pages == *p,
        Event::NotAttached { pages: p, cause } => pages == *p && !is_closed(*cause),
        _ => false,
    }
}

fn fills(event: &Event, id: u16, block: u32, count: u32, byte: u8) -> bool
    ensures { result ≡ is_call_for (fill id block count byte) event.now }
{
    match event {
        Event::Filled {
            id: i,
            block: b,
            count: n,
            byte: y,
            ..
        } => id == *i && block == *b && count == *n && byte == *y,
        _ => false,
    }
}

fn shows(event: &Event, id: u16, block: u32, count: u32) -> bool
    ensures { result ≡ is_call_for (show id block count) event.now }
{
    match event {
        Event::Shown {
            id: i,
            block: b,
            count: n,
            ..
        } => id == *i && block == *b && count == *n,
        _ => false,
    }
}

fn is_same(a: &[u8; 32], b: &[u8; 32]) -> bool
    ensures { result ≡ bytes_eq a.now b.now }
{
    a == b
}

fn sends(event: &Event, bytes: &[u8; 32]) -> bool
    ensures { result ≡ is_call_for (send bytes.now) event.now }
{
    match event {
        Event::Sent { bytes: sent, .. } => is_same(bytes, sent),
        _ => false,
    }
}

// Whether the event is what was asked for.
fn is_call(ask: &Ask, event: &Event) -> bool
    ensures { result ≡ is_call_for (played_ask ask.now) event.now }
{
    match ask {
        Ask::Attach { pages } => attaches(event, *pages),
        Ask::Fill {
            id,
            block,
            count,
            byte,
        } => fills(event, *id, *block, *count, *byte),
        Ask::Show { id, block, count } => shows(event, *id, *block, *count),
        Ask::Send { bytes } => sends(event, bytes),
        Ask::WaitAll => false,
        Ask::WaitFor { .. } => false,
    }
}

fn ends(finish: Finish, event: &Event) -> bool
    ensures { result ≡ is_end_of finish event.now }
{
    match (finish, event) {
        (Finish::Drain, Event::Drained) => true,
        (Finish::Abort, Event::Aborted) => true,
        _ => false,
    }
}

#[tactic(auto, using(crate::proofs::PlayedLemmas::no_calls))]
fn are_answers(log: &[Event]) -> bool
    ensures { result ≡ is_nil (calls_in log.now) }
{
    match log {
        [] => true,
        [event, rest @ ..] => is_answer(event) && are_answers(rest),
    }
}

// A log without an end isn't that of any calls.
#[tactic(auto, using(crate::proofs::PlayedLemmas::none_played))]
fn end_is_missing(finish: Finish, calls: &[Ask]) -> bool
    ensures { result ≡ are_calls_for finish (map played_ask calls.now) [] }
{
    false
}

// Whether the log without its answers has one event for each of these calls, in order, and then the
// end.
#[tactic(auto, using(crate::proofs::PlayedLemmas::answer_more, crate::proofs::PlayedLemmas::end_more, crate::proofs::PlayedLemmas::call_more))]
fn are_calls(finish: Finish, calls: &[Ask], log: &[Event]) -> bool
    ensures { result ≡ are_calls_for finish (map played_ask calls.now) (calls_in log.now) }
{
    match log {
        [] => end_is_missing(finish, calls),
        [event, rest @ ..] => {
            if is_answer(event) {
                return are_calls(finish, calls, rest);
            }
            match calls {
                [] => ends(finish, event) && are_answers(rest),
                [call, later @ ..] => is_call(call, event) && are_calls(finish, later, rest),
            }
        }
    }
}

/// Whether the log without its answers has one event for each call asked for, in order, and then
/// the end.
#[tactic(auto, using(crate::proofs::PlayedLemmas::asked_calls))]
pub fn are_calls_asked(
    alloc: Global,
    finish: Finish,
    asks: &[Ask],
    log: &[Event],
) -> Result<bool, AllocError>
    ensures { IfOk result (λ b.
        b ≡ are_calls_for finish (calls_asked (map played_ask asks.now)) (calls_in log.now)) }
{
    let calls = calls_of(alloc, asks)?;
    Ok(are_calls(finish, &calls, log))
}
