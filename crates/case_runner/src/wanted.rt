//! What a case wants.

use crate::entry::Entry;
use crate::wrong::Wrong;
use std::alloc::Global;

/// What is counted.
#[derive(Clone, Copy, Debug, PartialEq, Eq)]
pub enum Count {
    DiskFaults,
    DiskReads,
    DiskWrites,
    DiskSyncs,
    SourceFaults,
    SourceCalls,
    SinkFaults,
    SinkCalls,
}

#[derive(Drop)]
pub enum Wanted<'a> {
    /// One of these is the number of the status.
    Status {
        numbers: Vec<u64>,
    },
    /// The whole output.
    Output {
        lines: Vec<&'a str>,
    },
    /// They stand in it; where a count is said, so often.
    Has {
        lines: Vec<&'a str>,
        count: Option<u64>,
    },
    /// They stand in it exactly once with each number below this.
    HasEach {
        lines: Vec<&'a str>,
        count: u64,
    },
    HasNot {
        lines: Vec<&'a str>,
    },
    HasNone,
    LineCount {
        count: u64,
    },
    Counted {
        count: Count,
        number: u64,
    },
    CountedAtLeast {
        count: Count,
        number: u64,
    },
    Opened,
    Block {
        block: u64,
        byte: u8,
    },
    Crash {
        block: u64,
        bytes: Vec<u8>,
    },
    Others,
}

impl Wanted<'_> {
    /// Whether it names this block.
    pub fn names(&self, b: u64) -> bool {
        match self {
            Wanted::Block { block, .. } => *block == b,
            Wanted::Crash { block, .. } => *block == b,
            _ => false,
        }
    }
}

#[derive(Drop)]
pub struct WantedLine<'a> {
    pub line: u64,
    pub wanted: Wanted<'a>,
}

/// Adds what a line wants; false where it is no such line.
pub fn read_wanted<'a>(
    alloc: Global,
    entry: &Entry<'a>,
    list: &mut Vec<WantedLine<'a>>,
) -> Result<bool, Wrong> {
    let is_least = match entry.word(0) {
        "counts" => false,
        "least" => true,
        _ => {
            return match read_one(alloc, entry)? {
                Some(wanted) => {
                    add(list, entry, wanted)?;
                    Ok(true)
                }
                None => Ok(false),
            };
        }
    };
    read_counts(entry, is_least, list)?;
    Ok(true)
}

fn add<'a>(
    list: &mut Vec<WantedLine<'a>>,
    entry: &Entry<'a>,
    wanted: Wanted<'a>,
) -> Result<(), Wrong> {
    list.push(WantedLine {
        line: entry.line,
        wanted,
    })?;
    Ok(())
}

fn read_one<'a>(alloc: Global, entry: &Entry<'a>) -> Result<Option<Wanted<'a>>, Wrong> {
    match entry.word(0) {
        "output" | "has" | "hasnt" => Ok(Some(read_text(alloc, entry)?)),
        "lines" => Ok(Some(Wanted::LineCount {
            count: entry.number(1)?,
        })),
        "opened" => Ok(Some(Wanted::Opened)),
        "others" => Ok(Some(Wanted::Others)),
        _ => read_values(alloc, entry),
    }
}

fn read_text<'a>(alloc: Global, entry: &Entry<'a>) -> Result<Wanted<'a>, Wrong> {
    if entry.word(1) == "none" {
        return Ok(Wanted::HasNone);
    }
    let lines = entry.body.as_slice().to_vec(alloc)?;
    if entry.word(0) == "output" {
        return Ok(Wanted::Output { lines });
    }
    if lines.is_empty() {
        return Err(entry.wrong("no lines"));
    }
    if entry.word(0) == "hasnt" {
        return Ok(Wanted::HasNot { lines });
    }
    Ok(match entry.word(1) {
        "" => Wanted::Has { lines, count: None },
        "each" => Wanted::HasEach {
            lines,
            count: entry.number(2)?,
        },
        _ => Wanted::Has {
            lines,
            count: Some(entry.number(1)?),
        },
    })
}

fn read_values<'a>(alloc: Global, entry: &Entry<'a>) -> Result<Option<Wanted<'a>>, Wrong> {
    match entry.word(0) {
        "status" => {
            let from = if entry.word(1) == "one" { 3 } else { 1 };
            Ok(Some(Wanted::Status {
                numbers: numbers_from(alloc, entry, from)?,
            }))
        }
        "block" => {
            entry.has_count(3)?;
            Ok(Some(Wanted::Block {
                block: entry.number(1)?,
                byte: entry.byte(2)?,
            }))
        }
        "crash" => Ok(Some(Wanted::Crash {
            block: entry.number(1)?,
            bytes: bytes_from(alloc, entry, 2)?,
        })),
        _ => Ok(None),
    }
}

// The numbers from this word on.
fn numbers_from(alloc: Global, entry: &Entry<'_>, from: usize) -> Result<Vec<u64>, Wrong> {
    let mut numbers = Vec::new(alloc);
    for at in from..entry.words.len().max(from.saturating_add(1)) {
        numbers.push(entry.number(at)?)?;
    }
    Ok(numbers)
}

fn bytes_from(alloc: Global, entry: &Entry<'_>, from: usize) -> Result<Vec<u8>, Wrong> {
    let mut bytes = Vec::new(alloc);
    for at in from..entry.words.len().max(from.saturating_add(1)) {
        bytes.push(entry.byte(at)?)?;
    }
    Ok(bytes)
}

// The pairs of a name and a number after the object.
fn read_counts<'a>(
    entry: &Entry<'a>,
    is_least: bool,
    list: &mut Vec<WantedLine<'a>>,
) -> Result<(), Wrong> {
    let pairs = entry.words.len() / 2;
    if pairs < 2 || entry.words.len() % 2 == 1 {
        return Err(entry.wrong("no pairs of a name and a number"));
    }
    for pair in 1..pairs {
        let count = read_count(entry, 2 * pair)?;
        let number = entry.number(2 * pair + 1)?;
        let wanted = if is_least {
            Wanted::CountedAtLeast { count, number }
        } else {
            Wanted::Counted { count, number }
        };
        add(list, entry, wanted)?;
    }
    Ok(())
}

fn read_count(entry: &Entry<'_>, at: usize) -> Result<Count, Wrong> {
    let count = match entry.word(1) {
        "disk" => disk_count(entry.word(at)),
        "source" => stream_count(entry.word(at), Count::SourceFaults, Count::SourceCalls),
        "sink" => stream_count(entry.word(at), Count::SinkFaults, Count::SinkCalls),
        _ => None,
    };
    count.ok_or(entry.wrong("no count"))
}

fn disk_count(name: &str) -> Option<Count> {
    match name {
        "faults" => Some(Count::DiskFaults),
        "reads" => Some(Count::DiskReads),
        "writes" => Some(Count::DiskWrites),
        "syncs" => Some(Count::DiskSyncs),
        _ => None,
    }
}

fn stream_count(name: &str, faults: Count, calls: Count) -> Option<Count> {
    match name {
        "faults" => Some(faults),
        "calls" => Some(calls),
        _ => None,
    }
}
