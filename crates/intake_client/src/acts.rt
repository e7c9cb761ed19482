//! Courses of calls, each with what it is to answer.
use crate::bench::Bench;
use crate::step::Step;
use host_block::{Oom, Range};
use host_record::{Request, Response};
use std::alloc::Global;
use std::sync::Wait;

/// The partition of each course.
pub const PART: Range = Range {
    first: 34,
    count: 30,
};

/// A call, and its answer.
#[derive(Clone, Copy)]
pub enum Act {
    Send(Request),
    Start(Step),
    CarryOut(Step),
    End(Option<bool>),
    EndWaiting(u32, Option<bool>),
    Receive(Option<Response>),
    Abort(bool),
    Shut(bool),
    /// How many records were taken, are in flight, and have their answer kept.
    Counts(u32, u32, u32),
}

impl Act {
    // Makes the call, and tells whether it answered so.
    fn answers<R: Wait>(&self, rt: &R, bench: &mut Bench) -> bool {
        match *self {
            Act::Send(request) => bench.send(rt, &request),
            Act::Start(step) => bench.start(rt) == step,
            Act::CarryOut(step) => bench.carry_out(rt) == step,
            Act::End(answered) => bench.end() == answered,
            Act::EndWaiting(index, answered) => bench.end_waiting(index) == answered,
            Act::Receive(response) => bench.receive() == response,
            Act::Abort(well) => bench.abort() == well,
            Act::Shut(well) => bench.shut() == well,
            Act::Counts(taken, flights, kept) => bench.counts() == (taken, flights, kept),
        }
    }
}

/// Makes these calls. It tells the place of the first that answered otherwise.
pub fn play<R: Wait>(rt: &R, bench: &mut Bench, acts: &[Act]) -> Option<usize> {
    for (place, act) in acts.iter().enumerate() {
        if !act.answers(rt, bench) {
            return Some(place);
        }
    }
    None
}

/// The same in a session that has just begun, with one buffer of so many pages, given before record
/// `from`. At the end it tells how many rows the session has, if it was closed.
pub fn play_anew<R: Wait>(
    rt: &R,
    alloc: Global,
    pages: u32,
    from: u32,
    acts: &[Act],
) -> Result<(Option<usize>, Option<u64>), Oom> {
    let mut bench = Bench::new(rt, alloc, PART, pages, from)?;
    let other = play(rt, &mut bench, acts);
    match bench.into_rows() {
        Some(rows) => Ok((other, Some(rows.len()))),
        None => Ok((other, None)),
    }
}
