//! The verdicts on the records of a log.
ghost use Rattle.std.specs.Prelude.{◌≡◌, IfOk, None, if◌then◌else◌};
ghost use Rattle.host_model.specs.Log.{given_before, pages_given, pages_of};
ghost use Rattle.host_model.specs.Verdict.{closes, close_in, is_closed, verdict_after, verdicts};
ghost use Rattle.host_model.specs.Verdict.{verdicts_on};

use crate::log::request;
use host_block::Range;
use host_model::{Event, Verdict};
use host_record::{Opcode, Request};
use std::alloc::{AllocError, Global};

// Whether the request, with this verdict, closes the buffer.
fn closes_buffer(v: u16, r: &Request, verdict: Verdict) -> bool
    ensures { result ≡ closes v r.now verdict }
{
    matches!(verdict, Verdict::Accepted)
        && matches!(r.opcode(), Some(Opcode::Close))
        && r.vmoid == v
}

/// The first request that closes the buffer by its verdict.
pub fn closing_record(v: u16, rs: &[Request], verdicts: &[Verdict]) -> Option<usize>
    ensures { result ≡ close_in v rs.now verdicts.now }
{
    rs.iter()
        .zip(verdicts)
        .position(|(r, verdict)| closes_buffer(v, r, *verdict))
}

fn pages_if(event: &Event, v: u16) -> Option<u32>
    ensures { result ≡ pages_of v event.now }
{
    match event {
        Event::Attached { pages, id } if *id == v => Some(*pages),
        _ => None,
    }
}

/// The pages of the buffer, where these events gave it.
pub fn pages_in(log: &[Event], v: u16) -> Option<u32>
    ensures { result ≡ pages_given v log.now }
{
    match log {
        [] => None,
        [event, rest @ ..] => match pages_if(event, v) {
            Some(pages) => Some(pages),
            None => pages_in(rest, v),
        },
    }
}

// The pages of the buffer, where it was given before record i was sent.
fn pages_before(log: &[Event], i: usize, v: u16) -> Option<u32>
    ensures { result ≡ given_before log.now i v }
{
    match log {
        [] => None,
        [Event::Sent { .. }, rest @ ..] => {
            if i == 0 {
                None
            } else {
                pages_before(rest, i - 1, v)
            }
        }
        [event, rest @ ..] => match pages_if(event, v) {
            Some(pages) => Some(pages),
            None => pages_before(rest, i, v),
        },
    }
}

// The pages of the buffer, where it is attached for record i after these verdicts.
fn pages_for(log: &[Event], rs: &[Request], earlier: &[Verdict], i: usize, v: u16) -> Option<u32>
    ensures { result ≡ (if is_closed v rs.now earlier.now then None else given_before log.now i v) }
{
    if closing_record(v, rs, earlier).is_some() {
        None
    } else {
        pages_before(log, i, v)
    }
}

// The verdict on record i after those on the records before it.
fn verdict_next(
    log: &[Event],
    rs: &[Request],
    part: &Range,
    earlier: &[Verdict],
    i: usize,
) -> Verdict
    ensures { result ≡ verdict_after rs.now (given_before log.now) part.now earlier.now i }
{
    let r = request(rs, i);
    Verdict::on(&r, part, pages_for(log, rs, earlier, i, r.vmoid))
}

/// The verdicts on the first n records.
#[tactic(auto, using(crate::proofs::VerdictLemmas::verdicts_more))]
pub fn verdicts_of(
    alloc: Global,
    log: &[Event],
    rs: &[Request],
    part: &Range,
    n: usize,
) -> Result<Vec<Verdict>, AllocError>
    ensures { IfOk result (λ v. v.items ≡ verdicts_on rs.now (given_before log.now) part.now n) }
{
    let mut list = Vec::new(alloc);
    for i in 0..n {
        let verdict = verdict_next(log, rs, part, &list, i);
        list.push(verdict)?;
    }
    Ok(list)
}
