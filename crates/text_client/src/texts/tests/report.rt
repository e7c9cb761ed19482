//! A report with each kind of line, as it is printed.

use super::texts::{PLAIN, SUMMARY, WITH_STEPS};
use host_block::{BlockSize, Bytes, Oom, Op, Range, ReservedList};
use host_gpt::Which;
use host_io::{MemSink, Sink, SinkFailed};
use host_model::{
    AttachError, Event, Events, MemEntries, MemEntry, MemEvent, SharedBytes, Step, Steps, TakenRow,
    Verdict,
};
use host_record::{Finish, Status};
use host_report::{Closing, Report, SessionReport, write_report, write_summary};
use std::alloc::Global;
use std::test::Fail;

fn list_of<T: Drop>(alloc: Global, elements: Vec<T>) -> Result<ReservedList<T>, Oom> {
    let mut list = ReservedList::with_room(alloc, 0)?;
    for element in elements {
        list.reserve(1)?;
        list.push(element);
    }
    Ok(list)
}

// The bytes of an answer with this low byte of its status, and the others.
fn answer(low: u8, high: u8) -> [u8; 32] {
    let mut bytes = [0u8; 32];
    bytes[0] = low;
    bytes[1] = high;
    bytes[2] = high;
    bytes[3] = high;
    bytes[4] = 13;
    bytes[8] = 3;
    bytes[12] = 4;
    bytes
}

fn log(alloc: Global) -> Result<Events, Fail> {
    let calls = vec![in alloc;
        Event::Attached { pages: 8, id: 1 },
        Event::NotAttached {
            pages: 9,
            cause: AttachError::NoFrames
        },
        Event::NotAttached {
            pages: 9,
            cause: AttachError::NoIds
        },
        Event::NotAttached {
            pages: 9,
            cause: AttachError::Oom
        },
        Event::Filled {
            id: 1,
            block: 0,
            count: 4,
            byte: 10,
            done: true
        },
        Event::Sent {
            index: 0,
            bytes: [0xab; 32]
        },
        Event::Received {
            bytes: answer(0, 0)
        },
        Event::Received {
            bytes: answer(0xf2, 0xff)
        },
        Event::Shown {
            id: 1,
            block: 4,
            count: 1,
            done: true,
            bytes: Bytes::copied(alloc, &[1, 255])?
        },
        Event::Shown {
            id: 1,
            block: 0,
            count: 9,
            done: false,
            bytes: Bytes::empty(alloc)
        },
        Event::Aborted,
    ]?;
    Ok(list_of(alloc, calls)?)
}

fn entry(what: MemEvent) -> MemEntry {
    MemEntry { hand: 0, what }
}

fn memory(alloc: Global) -> Result<MemEntries, Fail> {
    let entries = vec![in alloc;
        entry(MemEvent::Attach {
            id: 1,
            pages: 8,
            from: 0
        }),
        entry(MemEvent::Fill {
            id: 1,
            block: 0,
            count: 4,
            byte: 10
        }),
        entry(MemEvent::Show {
            id: 1,
            block: 4,
            count: 1
        }),
        entry(MemEvent::Pin {
            index: 2,
            id: 1,
            by: 5
        }),
        entry(MemEvent::Lift {
            index: 2,
            k: 0,
            id: 1,
            block: 3,
            bytes: SharedBytes::copied(alloc, &[0; 512])?
        }),
        entry(MemEvent::Land {
            index: 2,
            k: 1,
            id: 1,
            block: 4,
            bytes: SharedBytes::copied(alloc, &[1, 255])?
        }),
        entry(MemEvent::Done { index: 2, id: 1 }),
        entry(MemEvent::Close { index: 3, id: 1 }),
        entry(MemEvent::Release { id: 1 }),
    ]?;
    Ok(list_of(alloc, entries)?)
}

fn step(at: (u32, u32, u32), op: Op, block: u64, bytes: SharedBytes, faulted: bool) -> Step {
    Step {
        hand: 0,
        session: at.0,
        index: at.1,
        k: at.2,
        op,
        block,
        bytes,
        faulted,
    }
}

fn steps(alloc: Global) -> Result<Steps, Fail> {
    let steps = vec![in alloc;
        step(
            (1, 0, 0),
            Op::Write,
            34,
            SharedBytes::copied(alloc, &[0xc1; 512])?,
            false
        ),
        step(
            (1, 1, 0),
            Op::Read,
            35,
            SharedBytes::copied(alloc, &[1, 255])?,
            false
        ),
        step((1, 1, 1), Op::Read, 36, SharedBytes::empty(), true),
        step((1, 2, 0), Op::Trim, 40, SharedBytes::empty(), false),
        step((0, 0, 0), Op::Flush, 9, SharedBytes::empty(), true),
    ]?;
    Ok(list_of(alloc, steps)?)
}

// A report with each kind of line.
fn every_line(alloc: Global) -> Result<Report, Fail> {
    let taken = vec![in alloc;
        TakenRow {
            verdict: Verdict::Accepted,
            outcome: Status::Io
        },
        TakenRow {
            verdict: Verdict::Refused(Status::OutOfRange),
            outcome: Status::OutOfRange
        },
    ]?;
    let session = SessionReport {
        number: 1,
        part: 2,
        range: Range {
            first: 34,
            count: 30,
        },
        log: log(alloc)?,
        taken: list_of(alloc, taken)?,
        memory: memory(alloc)?,
        finish: Finish::Abort,
    };
    Ok(Report {
        blocks: 128,
        size: BlockSize::new(512).ok_or("size")?,
        which: Which::Backup,
        sessions: list_of(alloc, vec![in alloc; session]?)?,
        steps: steps(alloc)?,
        closing: Closing::Fault,
        frames_home: 4096,
    })
}

#[test]
fn every_line_is_printed(rt: HostRuntime) -> Result<(), Fail> {
    let alloc = rt.alloc();
    let report = every_line(alloc)?;
    let mut plain = MemSink::new(alloc, 4096, Vec::new(alloc))?;
    assert!(rt; write_report(&report, false, &mut plain).is_ok());
    assert!(rt; plain.bytes() == PLAIN.as_bytes());
    let mut with_steps = MemSink::new(alloc, 4096, Vec::new(alloc))?;
    assert!(rt; write_report(&report, true, &mut with_steps).is_ok());
    assert!(rt; with_steps.bytes() == WITH_STEPS.as_bytes());
    let mut summary = MemSink::new(alloc, 4096, Vec::new(alloc))?;
    assert!(rt; write_summary(&report, &mut summary).is_ok());
    assert!(rt; summary.bytes() == SUMMARY.as_bytes());
    Ok(())
}

// A sink that takes a byte at a time, and fails at one call.
#[derive(Drop)]
struct Slow {
    bytes: Vec<u8>,
    fails_at: usize,
    calls: usize,
    faults: u64,
}

impl Sink for Slow {
    ghost use Rattle.std.specs.Prelude.{[], false};

    ghost tells = { λ s. false };

    ghost appended = { λ s. [] };

    ghost faults = { λ s. s.faults };

    fn put(&mut self, from: &[u8]) -> Result<usize, SinkFailed> {
        self.calls = self.calls.saturating_add(1);
        let Some(byte) = from.first() else {
            return Ok(0);
        };
        if self.calls == self.fails_at || self.bytes.push(*byte).is_err() {
            self.faults = self.faults.saturating_add(1);
            return Err(SinkFailed);
        }
        Ok(1)
    }
}

#[test]
fn a_sink_fails_at_each_call(rt: HostRuntime) -> Result<(), Fail> {
    let alloc = rt.alloc();
    let report = every_line(alloc)?;
    let text = PLAIN.as_bytes();
    for fails_at in 0..=text.len() {
        let mut sink = Slow {
            bytes: Vec::new(alloc),
            fails_at,
            calls: 0,
            faults: 0,
        };
        let done = write_report(&report, false, &mut sink);
        if fails_at == 0 {
            assert!(rt; done.is_ok());
            assert!(rt; sink.bytes.as_slice() == text);
        } else {
            assert!(rt; done.is_err());
            assert!(rt; sink.bytes.as_slice() == &text[..fails_at - 1]);
            assert_eq!(rt; sink.calls, fails_at);
        }
    }
    Ok(())
}
