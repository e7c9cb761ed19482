//! A report from its rows.

use super::cases::{BASE, Case};
use super::edit::edited;
use super::lists::{Act, Call, Entry, Lists};
use super::{groups, transfers};
use host_block::{BlockSize, Bytes, Oom, Op, Range, ReservedList};
use host_gpt::Which;
use host_model::{
    Event, Events, MemEntries, MemEntry, MemEvent, SharedBytes, Step, Steps, TakenRow, TakenRows,
};
use host_record::{Request, Response};
use host_report::{Closing, Report, SessionReport};
use std::alloc::Global;
use std::test::Fail;

pub const SESSIONS: [Lists; 6] = [
    transfers::REALISTIC,
    groups::FAILED,
    groups::AGAIN,
    groups::OPEN,
    transfers::FAULTS,
    transfers::ABORTED,
];

// Blocks, of which each has one byte 512 times.
fn blocks(alloc: Global, bytes: &[u8]) -> Result<Vec<u8>, Fail> {
    let mut all = Vec::new(alloc);
    for byte in bytes {
        for _ in 0..512 {
            all.push(*byte)?;
        }
    }
    Ok(all)
}

// Those of a step or an entry.
fn shared(alloc: Global, bytes: &[u8]) -> Result<SharedBytes, Fail> {
    Ok(SharedBytes::copied(alloc, &blocks(alloc, bytes)?)?)
}

/// The bytes of a request.
pub fn request_bytes(
    command: u32,
    reqid: u32,
    group: u16,
    vmoid: u16,
    length: u32,
    vmo_offset: u64,
    dev_offset: u64,
) -> [u8; 32] {
    let request = Request {
        command,
        reqid,
        group,
        vmoid,
        length,
        vmo_offset,
        dev_offset,
    };
    request.to_bytes()
}

fn event(alloc: Global, call: Call) -> Result<Event, Fail> {
    Ok(match call {
        Call::Attach(pages, id) => Event::Attached { pages, id },
        Call::Fill(id, block, count, byte, done) => Event::Filled {
            id,
            block,
            count,
            byte,
            done,
        },
        Call::Send(index, command, reqid, group, vmoid, length, vmo_offset, dev_offset) => {
            Event::Sent {
                index,
                bytes: request_bytes(command, reqid, group, vmoid, length, vmo_offset, dev_offset),
            }
        }
        Call::Answer(status, reqid, group, count) => {
            let response = Response {
                status: status.number(),
                reqid,
                group,
                count,
            };
            Event::Received {
                bytes: response.to_bytes(),
            }
        }
        Call::Show(id, block, bytes) => Event::Shown {
            id,
            block,
            count: bytes.len().min(9) as u32,
            done: true,
            bytes: Bytes::copied(alloc, &blocks(alloc, bytes)?)?,
        },
        Call::Drain => Event::Drained,
        Call::Abort => Event::Aborted,
    })
}

fn entry(alloc: Global, entry: Entry) -> Result<MemEntry, Fail> {
    let what = match entry {
        Entry::Attach(id, pages, from) => MemEvent::Attach { id, pages, from },
        Entry::Fill(id, block, count, byte) => MemEvent::Fill {
            id,
            block,
            count,
            byte,
        },
        Entry::Show(id, block, count) => MemEvent::Show { id, block, count },
        Entry::Pin(index, id) => MemEvent::Pin { index, id, by: 1 },
        Entry::Lift(index, k, id, block, byte) => MemEvent::Lift {
            index,
            k,
            id,
            block,
            bytes: shared(alloc, &[byte])?,
        },
        Entry::Land(index, k, id, block, byte) => MemEvent::Land {
            index,
            k,
            id,
            block,
            bytes: shared(alloc, &[byte])?,
        },
        Entry::Done(index, id) => MemEvent::Done { index, id },
        Entry::Release(id) => MemEvent::Release { id },
    };
    Ok(MemEntry { hand: 1, what })
}

fn step(alloc: Global, session: u32, act: Act) -> Result<Step, Fail> {
    Ok(Step {
        hand: 1,
        session,
        index: act.0,
        k: act.1,
        op: act.2,
        block: act.3,
        bytes: shared(alloc, act.4)?,
        faulted: act.5,
    })
}

fn add<T: Drop>(list: &mut ReservedList<T>, element: T) -> Result<(), Oom> {
    list.reserve(1)?;
    list.push(element);
    Ok(())
}

fn events(alloc: Global, calls: &[Call]) -> Result<Events, Fail> {
    let mut list = ReservedList::with_room(alloc, 0)?;
    for call in calls {
        add(&mut list, event(alloc, *call)?)?;
    }
    Ok(list)
}

fn entries(alloc: Global, rows: &[Entry]) -> Result<MemEntries, Fail> {
    let mut list = ReservedList::with_room(alloc, 0)?;
    for row in rows {
        add(&mut list, entry(alloc, *row)?)?;
    }
    Ok(list)
}

fn taken(alloc: Global, rows: &[TakenRow]) -> Result<TakenRows, Fail> {
    let mut list = ReservedList::with_room(alloc, 0)?;
    for row in rows {
        add(&mut list, *row)?;
    }
    Ok(list)
}

fn session(alloc: Global, lists: &Lists, case: &Case) -> Result<SessionReport, Fail> {
    Ok(SessionReport {
        number: lists.number,
        part: 1,
        range: Range {
            first: 34,
            count: 30,
        },
        log: events(alloc, &edited(alloc, lists.log, case.log)?)?,
        taken: taken(alloc, &edited(alloc, lists.rows, case.rows)?)?,
        memory: entries(alloc, &edited(alloc, lists.entries, case.entries)?)?,
        finish: lists.finish,
    })
}

fn add_steps(steps: &mut Steps, alloc: Global, lists: &Lists, case: &Case) -> Result<(), Fail> {
    for act in &edited(alloc, lists.acts, case.acts)? {
        add(steps, step(alloc, lists.number, *act)?)?;
    }
    Ok(())
}

fn closing_flush() -> Step {
    Step {
        hand: 0,
        session: 0,
        index: 0,
        k: 0,
        op: Op::Flush,
        block: 0,
        bytes: SharedBytes::empty(),
        faulted: false,
    }
}

/// The report of the six sessions, with the changes of this case.
pub fn report(alloc: Global, case: &Case) -> Result<Report, Fail> {
    let mut sessions = ReservedList::with_room(alloc, 6)?;
    let mut steps = ReservedList::with_room(alloc, 0)?;
    for lists in &SESSIONS {
        let changes = if lists.number == case.session {
            case
        } else {
            &BASE
        };
        add(&mut sessions, session(alloc, lists, changes)?)?;
        add_steps(&mut steps, alloc, lists, changes)?;
    }
    for _ in 0..case.flushes {
        add(&mut steps, closing_flush())?;
    }
    Ok(Report {
        blocks: 128,
        size: BlockSize::new(512).ok_or(Oom)?,
        which: Which::Primary,
        sessions,
        steps,
        closing: Closing::Good,
        frames_home: case.frames_home,
    })
}
