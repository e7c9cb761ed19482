//! The client in one thread, and in another the hand, which ends each record as the plain judge
//! says. The plain judge looks at each session.
use super::{close, flush, last, member, read, request, trim};
use crate::{Deed, PART, Sizes, end_under, run_pair};
use buffer_check::{events_of, is_buffer_history};
use host_block::Oom;
use host_model::{Event, MemEntry, TakenRow};
use host_record::Finish;
use record_check::{is_answered, is_taken_in_order};
use std::alloc::{AllocError, Global};
use std::sync::Wait;
use std::test::*;
use std::thread::Threads;

// Whether the plain judge finds nothing wrong with a session whose records make no steps.
fn is_well(
    alloc: Global,
    log: &[Event],
    rows: &[TakenRow],
    entries: &[MemEntry],
    how: Finish,
) -> Result<bool, Oom> {
    let history = events_of(alloc, entries)?;
    let steps = Vec::new(alloc);
    let told = is_buffer_history(alloc, 512, &PART, log, rows, &history, &steps, how)?;
    let Ok(taken) = is_taken_in_order(alloc, 512, &PART, log, rows, &history, &steps, how) else {
        return Err(Oom);
    };
    let Ok(answered) = is_answered(alloc, 512, &PART, log, rows, &history, &steps, how) else {
        return Err(Oom);
    };
    Ok(told && taken && answered)
}

// Whether each record, which the hand ended by the plain verdict, ended as the intake's own verdict
// has it.
fn end_alike(rows: &[TakenRow]) -> bool {
    rows.iter().all(|row| row.outcome == end_under(row.verdict))
}

// Plays a session. It tells how many rows it has, if the judge finds nothing wrong.
fn rows_if_well<R: Threads + Wait + Sync>(
    rt: &R,
    alloc: Global,
    depth: u32,
    deeds: &[Deed],
    how: Finish,
) -> Result<Option<u64>, Oom> {
    if depth == 0 || depth > 128 {
        return Ok(None);
    }
    let sizes = Sizes {
        frames: 4,
        depth,
        records: 100,
        events: 300,
    };
    let Some((log, rows, entries)) = run_pair(rt, alloc, sizes, deeds, how)? else {
        return Ok(None);
    };
    let well = is_well(
        alloc,
        log.as_slice(),
        rows.as_slice(),
        entries.as_slice(),
        how,
    )?;
    if well && end_alike(rows.as_slice()) {
        Ok(Some(rows.len()))
    } else {
        Ok(None)
    }
}

// Two buffers, a group of three, and lone records of which some are refused.
fn course() -> [Deed; 20] {
    [
        Deed::Attach(2),
        Deed::Fill {
            id: 1,
            block: 0,
            count: 2,
            byte: 7,
        },
        Deed::Send(flush(0)),
        Deed::Send(member(1)),
        Deed::Send(read(2, 2)),
        Deed::Send(member(3)),
        Deed::Send(trim(4, 30)),
        Deed::Send(last(5)),
        Deed::Await(4),
        Deed::Show {
            id: 1,
            block: 0,
            count: 2,
        },
        Deed::Attach(1),
        Deed::Send(close(6, 1)),
        Deed::Send(close(7, 1)),
        Deed::Send(trim(8, 29)),
        Deed::Await(5),
        Deed::Show {
            id: 1,
            block: 0,
            count: 1,
        },
        Deed::Fill {
            id: 2,
            block: 0,
            count: 1,
            byte: 8,
        },
        Deed::Send(request(9, 9)),
        Deed::Send(close(10, 2)),
        Deed::Send(member(11)),
    ]
}

fn flushes(alloc: Global, count: u32) -> Result<Vec<Deed>, AllocError> {
    let mut deeds = Vec::new(alloc);
    for n in 0..count {
        deeds.push(Deed::Send(flush(n)))?;
    }
    Ok(deeds)
}

#[test]
fn a_drained_session_is_whole(rt: HostRuntime) -> Result<(), Fail> {
    for _ in 0..50 {
        for depth in [1, 2, 16] {
            let rows = rows_if_well(&rt, rt.alloc(), depth, &course(), Finish::Drain)?;
            assert_eq!(rt; rows, Some(12), "depth {depth}");
        }
    }
    Ok(())
}

#[test]
fn an_aborted_session_is_a_beginning(rt: HostRuntime) -> Result<(), Fail> {
    for _ in 0..50 {
        for depth in [1, 2, 16] {
            let rows = rows_if_well(&rt, rt.alloc(), depth, &course(), Finish::Abort)?;
            assert!(rt; rows.is_some_and(|n| 7 <= n && n <= 12), "depth {depth}");
        }
    }
    Ok(())
}

#[test]
fn more_is_sent_than_the_rings_hold(rt: HostRuntime) -> Result<(), Fail> {
    let deeds = flushes(rt.alloc(), 30)?;
    for depth in [1, 3] {
        let rows = rows_if_well(&rt, rt.alloc(), depth, &deeds, Finish::Drain)?;
        assert_eq!(rt; rows, Some(30), "depth {depth}");
    }
    Ok(())
}
