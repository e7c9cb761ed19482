//! Calls that fail.

use crate::entry::Entry;
use crate::wrong::Wrong;
use host_io::{CallKind, FailAt};
use std::alloc::{AllocError, Global};

/// The calls among which one fails.
#[derive(Clone, Copy, Debug, PartialEq, Eq)]
pub enum Place {
    Disk { kind: CallKind, part: u32 },
    Source,
    Sink,
}

/// A call that fails, by its number from 1.
#[derive(Clone, Copy, Debug, PartialEq, Eq)]
pub struct Failing {
    pub place: Place,
    pub nr: u64,
}

/// The calls of each object that fail.
#[derive(Drop)]
pub struct Fails {
    pub disk: Vec<FailAt>,
    pub source: Vec<u64>,
    pub sink: Vec<u64>,
}

/// The call that a line `fail` says.
pub fn read_failing(entry: &Entry<'_>) -> Result<Failing, Wrong> {
    match entry.word(1) {
        "disk" => Ok(Failing {
            place: Place::Disk {
                kind: read_kind(entry)?,
                part: read_part(entry, 4)?,
            },
            nr: entry.number(3)?,
        }),
        _ => Ok(Failing {
            place: read_stream(entry)?,
            nr: entry.number(2)?,
        }),
    }
}

/// The calls that a line `each` says.
pub fn read_place(entry: &Entry<'_>) -> Result<Place, Wrong> {
    match entry.word(1) {
        "disk" => Ok(Place::Disk {
            kind: read_kind(entry)?,
            part: read_part(entry, 3)?,
        }),
        _ => read_stream(entry),
    }
}

fn read_stream(entry: &Entry<'_>) -> Result<Place, Wrong> {
    match entry.word(1) {
        "source" => Ok(Place::Source),
        "sink" => Ok(Place::Sink),
        _ => Err(entry.wrong("neither disk, source nor sink")),
    }
}

fn read_kind(entry: &Entry<'_>) -> Result<CallKind, Wrong> {
    match entry.word(2) {
        "attach" => Ok(CallKind::Attach),
        "read" => Ok(CallKind::Read),
        "write" => Ok(CallKind::Write),
        "sync" => Ok(CallKind::Sync),
        _ => Err(entry.wrong("no kind of call")),
    }
}

// The part that is said from this word on, 0 where none is.
fn read_part(entry: &Entry<'_>, at: usize) -> Result<u32, Wrong> {
    match entry.word(at) {
        "" => Ok(0),
        "part" => entry.small_number(at.saturating_add(1)),
        _ => Err(entry.wrong("no part")),
    }
}

impl Fails {
    /// These calls, by their objects.
    pub fn of(alloc: Global, failing: &[Failing]) -> Result<Fails, AllocError> {
        let mut fails = Fails {
            disk: Vec::new(alloc),
            source: Vec::new(alloc),
            sink: Vec::new(alloc),
        };
        for one in failing {
            fails.add(*one)?;
        }
        Ok(fails)
    }

    fn add(&mut self, failing: Failing) -> Result<(), AllocError> {
        let nr = failing.nr;
        match failing.place {
            Place::Disk { kind, part } => self.disk.push(FailAt { kind, nr, part })?,
            Place::Source => self.source.push(nr)?,
            Place::Sink => self.sink.push(nr)?,
        }
        Ok(())
    }
}
