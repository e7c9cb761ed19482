//! The life of records, case by case.
mod verdicts;

use crate::Act::*;
use crate::Step::*;
use crate::{Act, Bench, PART, close, flush, last, member, play, play_anew, read};
use host_block::Oom;
use host_record::{Response, Status};
use std::alloc::Global;
use std::sync::Wait;
use std::test::*;

fn lone(status: i32, reqid: u32) -> Option<Response> {
    Some(Response {
        status,
        reqid,
        group: 0,
        count: 1,
    })
}

fn group(status: i32, reqid: u32, group: u16, count: u32) -> Option<Response> {
    Some(Response {
        status,
        reqid,
        group,
        count,
    })
}

// The answer is the first member's error, though a later one ended before.
#[test]
fn first_error_of_a_group(rt: HostRuntime) -> Result<(), Fail> {
    let acts = [
        Send(member(read(1, 1, 0, 30, 1), 3)),
        Send(member(flush(2), 3)),
        Send(last(read(3, 9, 0, 0, 1), 3)),
        Start(Taken(Status::OutOfRange)),
        CarryOut(Taken(Status::Ok)),
        CarryOut(Taken(Status::NotFound)),
        CarryOut(NoRecord),
        Receive(None),
        End(Some(true)),
        Receive(group(-14, 3, 3, 3)),
        Receive(None),
    ];
    assert_eq!(rt; play_anew(&rt, rt.alloc(), 1, 0, &acts), Ok((None, None)));
    Ok(())
}

// A member whose number has a closed instance that hasn't ended is held, and taken once it has.
#[test]
fn number_used_again(rt: HostRuntime) -> Result<(), Fail> {
    let acts = [
        Send(last(flush(1), 3)),
        Send(last(flush(2), 3)),
        Send(flush(3)),
        Start(Taken(Status::Ok)),
        CarryOut(Stalled),
        CarryOut(Stalled),
        Counts(1, 1, 0),
        End(Some(true)),
        CarryOut(Taken(Status::Ok)),
        CarryOut(Taken(Status::Ok)),
        Counts(3, 0, 3),
        Receive(group(0, 1, 3, 1)),
        Receive(group(0, 2, 3, 1)),
        Receive(lone(0, 3)),
        Receive(None),
    ];
    assert_eq!(rt; play_anew(&rt, rt.alloc(), 0, 0, &acts), Ok((None, None)));
    Ok(())
}

// A buffer stands for no record that was sent before it was given.
#[test]
fn id_not_yet_given(rt: HostRuntime) -> Result<(), Fail> {
    let acts = [
        Send(read(1, 1, 0, 0, 1)),
        Send(close(2, 1)),
        Send(read(3, 1, 0, 0, 1)),
        Send(read(4, 2, 0, 0, 1)),
        CarryOut(Taken(Status::NotFound)),
        CarryOut(Taken(Status::NotFound)),
        CarryOut(Taken(Status::Ok)),
        CarryOut(Taken(Status::NotFound)),
        CarryOut(NoRecord),
    ];
    assert_eq!(rt; play_anew(&rt, rt.alloc(), 1, 2, &acts), Ok((None, None)));
    Ok(())
}

// A close behind a read waits, and the buffer stands for no later record.
#[test]
fn close_with_pins(rt: HostRuntime) -> Result<(), Fail> {
    let acts = [
        Send(read(1, 1, 0, 0, 1)),
        Send(last(close(2, 1), 5)),
        Send(read(3, 1, 0, 0, 1)),
        Start(Taken(Status::Ok)),
        CarryOut(Waits),
        CarryOut(Taken(Status::NotFound)),
        Counts(3, 2, 1),
        EndWaiting(0, None),
        End(Some(true)),
        EndWaiting(1, Some(true)),
        EndWaiting(1, None),
        Counts(3, 0, 3),
        Receive(lone(-25, 3)),
        Receive(lone(0, 1)),
        Receive(group(0, 2, 5, 1)),
    ];
    assert_eq!(rt; play_anew(&rt, rt.alloc(), 1, 0, &acts), Ok((None, None)));
    Ok(())
}

// An abort drops the record that is held and the answers kept, and keeps no later one.
#[test]
fn abort_drops_what_is_held_and_kept(rt: HostRuntime) -> Result<(), Fail> {
    let acts = [
        Send(flush(1)),
        Send(last(flush(2), 3)),
        Send(last(flush(3), 3)),
        CarryOut(Taken(Status::Ok)),
        Start(Taken(Status::Ok)),
        Start(Stalled),
        Counts(2, 1, 1),
        Shut(false),
        Abort(true),
        Counts(2, 1, 0),
        Receive(None),
        Start(Finished),
        Shut(false),
        End(Some(true)),
        Counts(2, 0, 0),
        Receive(None),
        Shut(true),
        Abort(false),
        Start(Finished),
    ];
    assert_eq!(rt;
        play_anew(&rt, rt.alloc(), 0, 0, &acts),
        Ok((None, Some(2)))
    );
    Ok(())
}

fn fill_up<R: Wait>(rt: &R, alloc: Global, acts: &[Act]) -> Result<(bool, Option<usize>), Oom> {
    let mut bench = Bench::new(rt, alloc, PART, 0, 0)?;
    let mut well = true;
    for reqid in 0..66 {
        well = bench.send(rt, &flush(reqid)) && well;
    }
    for _ in 0..62 {
        well = bench.carry_out(rt) == Taken(Status::Ok) && well;
    }
    Ok((well, play(rt, &mut bench, acts)))
}

// Records in flight and answers kept are 64 together at most.
#[test]
fn sixty_four_at_once(rt: HostRuntime) -> Result<(), Fail> {
    let acts = [
        Counts(62, 0, 62),
        Start(Taken(Status::Ok)),
        Start(Taken(Status::Ok)),
        Start(AtLimit),
        Counts(64, 2, 62),
        Receive(lone(0, 0)),
        Start(Taken(Status::Ok)),
        Start(AtLimit),
        End(Some(true)),
        Start(AtLimit),
        Counts(65, 2, 62),
    ];
    assert_eq!(rt; fill_up(&rt, rt.alloc(), &acts), Ok((true, None)));
    Ok(())
}
