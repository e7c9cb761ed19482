//! The records taken, and how the log ends.
ghost use Rattle.std.specs.Prelude.{◌≡◌, ◌↔◌, ◌+◌, ◌<◌, ◌^◌, IsTrue, map, filter_map, length, IfOk};
ghost use Rattle.host_model.specs.Lists.{all_with_before, is_nil};
ghost use Rattle.host_model.specs.Log.{given, given_id, sent_index};
ghost use Rattle.host_model.specs.Taking.{is_attach, is_end, is_out_of_ids, runs_out_rightly};
ghost use Rattle.record_check.specs.Counting.{counts_from, ends_as, is_end_for};

use host_model::{AttachError, Event, TakenRow, Verdict};
use host_record::Finish;
use std::alloc::{AllocError, Global};

fn index_sent(event: &Event) -> Option<u32>
    ensures { result ≡ sent_index event.now }
{
    match event {
        Event::Sent { index, .. } => Some(*index),
        _ => None,
    }
}

/// The indexes of the records sent.
pub fn indexes_sent(alloc: Global, log: &[Event]) -> Result<Vec<u32>, AllocError>
    ensures { IfOk result (λ v. v.items ≡ filter_map sent_index log.now) }
{
    log.iter().filter_map(index_sent).collect(alloc)
}

/// Whether the numbers are n, n + 1 and so on.
pub fn count_from(numbers: &[u32], n: u64) -> bool
    requires { n + length numbers.now < 2 ^ 64 }
    ensures { result ≡ counts_from n numbers.now }
{
    match numbers {
        [] => true,
        [number, rest @ ..] => *number as u64 == n && count_from(rest, n + 1),
    }
}

fn is_same(a: Verdict, b: Verdict) -> bool
    ensures { IsTrue result ↔ (a ≡ b) }
{
    a == b
}

/// Whether the rows have these verdicts.
pub fn have_verdicts(rows: &[TakenRow], verdicts: &[Verdict]) -> bool
    ensures { IsTrue result ↔ (map (λ row. row.verdict) rows.now ≡ verdicts.now) }
{
    match (rows, verdicts) {
        ([], []) => true,
        ([row, rows @ ..], [verdict, verdicts @ ..]) => {
            is_same(row.verdict, *verdict) && have_verdicts(rows, verdicts)
        }
        _ => false,
    }
}

fn ends_log(event: &Event) -> bool
    ensures { result ≡ is_end event.now }
{
    match event {
        Event::Drained => true,
        Event::Aborted => true,
        _ => false,
    }
}

// Whether the event ends a log of that finish.
fn is_its_end(event: &Event, finish: Finish) -> bool
    ensures { result ≡ is_end_for finish event.now }
{
    match finish {
        Finish::Drain => match event {
            Event::Drained => true,
            _ => false,
        },
        Finish::Abort => match event {
            Event::Aborted => true,
            _ => false,
        },
    }
}

fn are_none(log: &[Event]) -> bool
    ensures { result ≡ is_nil log.now }
{
    match log {
        [] => true,
        [_, ..] => false,
    }
}

/// Whether the log has one end, its last event.
pub fn ends_rightly(log: &[Event], finish: Finish) -> bool
    ensures { result ≡ ends_as finish log.now }
{
    match log {
        [] => false,
        [event, rest @ ..] => {
            if ends_log(event) {
                are_none(rest) && is_its_end(event, finish)
            } else {
                ends_rightly(rest, finish)
            }
        }
    }
}

fn is_attaching(event: &Event) -> bool
    ensures { result ≡ is_attach event.now }
{
    match event {
        Event::Attached { .. } => true,
        Event::NotAttached { .. } => true,
        _ => false,
    }
}

fn lacks_ids(event: &Event) -> bool
    ensures { result ≡ is_out_of_ids event.now }
{
    match event {
        Event::NotAttached { cause, .. } => match cause {
            AttachError::NoIds => true,
            _ => false,
        },
        _ => false,
    }
}

fn id_given(event: &Event) -> Option<u16>
    ensures { result ≡ given_id event.now }
{
    match event {
        Event::Attached { id, .. } => Some(*id),
        _ => None,
    }
}

fn given_count(log: &[Event]) -> usize
    ensures { result ≡ length (given log.now) }
{
    log.iter().filter_map(id_given).count()
}

// Whether an attach after these events was rightly refused for want of ids, or rightly not.
fn lacks_ids_rightly(before: &[Event], event: &Event) -> bool
    ensures { result ≡ runs_out_rightly before.now event.now }
{
    if !is_attaching(event) {
        true
    } else if lacks_ids(event) {
        given_count(before) == 65535
    } else {
        given_count(before) != 65535
    }
}

/// Whether each attach was.
#[tactic(auto, using(crate::proofs::BeforeLemmas::all_before_more))]
pub fn all_lack_ids_rightly(log: &[Event]) -> bool
    ensures { result ≡ all_with_before runs_out_rightly log.now }
{
    let mut all = true;
    for i in 0..log.len() {
        let here = lacks_ids_rightly(&log[..i], &log[i]);
        all = all & here;
    }
    all
}
