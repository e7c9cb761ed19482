//! Each check of the verdict alone, and each pair of checks together, against the plain judge.
use crate::{Bench, PART, Step, close, flush, last, member, read, request, trim};
use host_block::Oom;
use host_model::{Event, Verdict};
use host_record::{Request, Status};
use record_check::verdicts_of;
use std::alloc::Global;
use std::sync::Wait;
use std::test::*;

const FAULTS: u32 = 7;

// What the checks answer, in their order.
fn answer_to(fault: u32) -> Status {
    match fault {
        0 => Status::InvalidArgs,
        1 => Status::NotSupported,
        2 => Status::InvalidArgs,
        3 => Status::InvalidArgs,
        4 => Status::OutOfRange,
        5 => Status::NotFound,
        _ => Status::TooSmall,
    }
}

// The request with one fault more: group 8, an unknown command, an unknown bit, no block, a range
// whose sum passes 2^64, an id that wasn't given, a range past the buffer.
fn with_fault(r: Request, fault: u32) -> Request {
    match fault {
        0 => member(r, 8),
        1 => Request {
            command: r.command | 8,
            ..r
        },
        2 => Request {
            command: r.command | 0x1000,
            ..r
        },
        3 => Request { length: 0, ..r },
        4 => Request {
            dev_offset: u64::MAX,
            ..r
        },
        5 => Request { vmoid: 7, ..r },
        _ => Request {
            vmo_offset: u64::MAX,
            ..r
        },
    }
}

fn put<T: Drop>(list: &mut Vec<T>, item: T) -> Result<(), Oom> {
    match list.push(item) {
        Ok(()) => Ok(()),
        Err(_) => Err(Oom),
    }
}

fn as_status(verdict: &Verdict) -> Status {
    match verdict {
        Verdict::Accepted => Status::Ok,
        Verdict::Refused(status) => *status,
    }
}

// The status with which each ends, in a session with one buffer of two pages.
fn ends<R: Wait>(rt: &R, alloc: Global, rs: &[Request]) -> Result<Vec<Status>, Oom> {
    let mut bench = Bench::new(rt, alloc, PART, 2, 0)?;
    let mut found = Vec::new(alloc);
    for r in rs {
        bench.send(rt, r);
        match bench.carry_out(rt) {
            Step::Taken(status) => put(&mut found, status)?,
            Step::Waits => put(&mut found, Status::Ok)?,
            _ => return Ok(found),
        }
        bench.receive();
    }
    Ok(found)
}

// The status that the plain judge gives each.
fn judged(alloc: Global, rs: &[Request]) -> Result<Vec<Status>, Oom> {
    let mut log = Vec::new(alloc);
    put(&mut log, Event::Attached { pages: 2, id: 1 })?;
    for (r, index) in rs.iter().zip(0..) {
        let bytes = r.to_bytes();
        put(&mut log, Event::Sent { index, bytes })?;
    }
    let Ok(verdicts) = verdicts_of(alloc, &log, rs, &PART, rs.len()) else {
        return Err(Oom);
    };
    let mut wanted = Vec::new(alloc);
    for verdict in &verdicts {
        put(&mut wanted, as_status(verdict))?;
    }
    Ok(wanted)
}

// Whether each ends as it is due, and as the plain judge says.
fn end_so<R: Wait>(rt: &R, alloc: Global, rs: &[Request], due: &[Status]) -> Result<bool, Oom> {
    let found = ends(rt, alloc, rs)?;
    let wanted = judged(alloc, rs)?;
    Ok(found.as_slice() == due && wanted.as_slice() == due)
}

fn all_pairs<R: Wait>(rt: &R, alloc: Global) -> Result<bool, Oom> {
    let mut rs = Vec::new(alloc);
    let mut due = Vec::new(alloc);
    put(&mut rs, read(0, 1, 0, 0, 1))?;
    put(&mut due, Status::Ok)?;
    for first in 0..FAULTS {
        for second in first..FAULTS {
            let r = with_fault(with_fault(read(0, 1, 0, 0, 1), first), second);
            put(&mut rs, r)?;
            put(&mut due, answer_to(first))?;
        }
    }
    end_so(rt, alloc, &rs, &due)
}

#[test]
fn checks_alone_and_in_pairs(rt: HostRuntime) -> Result<(), Fail> {
    assert_eq!(rt; all_pairs(&rt, rt.alloc()), Ok(true));
    Ok(())
}

#[test]
fn edges(rt: HostRuntime) -> Result<(), Fail> {
    let rs = [
        read(1, 1, 0, 28, 2),
        read(2, 1, 0, 29, 2),
        read(3, 1, 1, 0, 1),
        read(4, 1, 1, 0, 2),
        read(5, 1, 0, 0, 65537),
        trim(6, 29, 2),
        read(7, 0, 0, 0, 1),
        request(0, 8),
        request(9, 9),
        request(255, 10),
        close(11, 2),
        last(flush(12), 7),
        last(flush(13), 8),
        close(14, 1),
        read(15, 1, 0, 0, 1),
        close(16, 1),
    ];
    let due = [
        Status::Ok,
        Status::OutOfRange,
        Status::Ok,
        Status::TooSmall,
        Status::InvalidArgs,
        Status::OutOfRange,
        Status::NotFound,
        Status::NotSupported,
        Status::NotSupported,
        Status::NotSupported,
        Status::NotFound,
        Status::Ok,
        Status::InvalidArgs,
        Status::Ok,
        Status::NotFound,
        Status::NotFound,
    ];
    assert_eq!(rt; end_so(&rt, rt.alloc(), &rs, &due), Ok(true));
    Ok(())
}
