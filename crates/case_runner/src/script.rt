//! The script of a case.

use crate::entry::Entry;
use crate::wrong::Wrong;
use host_io::MemSink;
use host_script::{generate, print_script};
use std::alloc::{AllocError, Global};

/// The most bytes that a generated script has.
const ROOM: u32 = 2_000_000;

/// What a line adds to the script.
#[derive(Drop)]
pub enum ScriptPiece<'a> {
    Lines {
        lines: Vec<&'a str>,
    },
    Repeat {
        count: u64,
        lines: Vec<&'a str>,
    },
    Made {
        seed: u32,
        sessions: u32,
        requests: u32,
    },
    Filled {
        count: u64,
        byte: u8,
    },
    Bytes {
        bytes: Vec<u8>,
    },
}

/// What a line says of the script, if it does.
pub fn read_script<'a>(alloc: Global, entry: &Entry<'a>) -> Result<Option<ScriptPiece<'a>>, Wrong> {
    match entry.word(0) {
        "script" => Ok(Some(read_piece(alloc, entry)?)),
        "repeat" => Ok(Some(ScriptPiece::Repeat {
            count: entry.number(1)?,
            lines: entry.body.as_slice().to_vec(alloc)?,
        })),
        _ => Ok(None),
    }
}

fn read_piece<'a>(alloc: Global, entry: &Entry<'a>) -> Result<ScriptPiece<'a>, Wrong> {
    match entry.word(1) {
        "" => Ok(ScriptPiece::Lines {
            lines: entry.body.as_slice().to_vec(alloc)?,
        }),
        "made" => Ok(ScriptPiece::Made {
            seed: entry.small_number(2)?,
            sessions: entry.small_number(3)?,
            requests: entry.small_number(4)?,
        }),
        "bytes" => Ok(ScriptPiece::Filled {
            count: entry.number(2)?,
            byte: entry.byte(3)?,
        }),
        "hex" => Ok(ScriptPiece::Bytes {
            bytes: entry.bytes(alloc, 2)?,
        }),
        _ => Err(entry.wrong("no script")),
    }
}

/// The script of these pieces.
pub fn script_of(alloc: Global, pieces: &[ScriptPiece<'_>]) -> Result<Vec<u8>, Wrong> {
    let mut script = Vec::new(alloc);
    for piece in pieces {
        add_piece(alloc, &mut script, piece)?;
    }
    Ok(script)
}

fn add_piece(alloc: Global, script: &mut Vec<u8>, piece: &ScriptPiece<'_>) -> Result<(), Wrong> {
    match piece {
        ScriptPiece::Lines { lines } => add_lines(script, lines)?,
        ScriptPiece::Repeat { count, lines } => {
            for number in 0..*count {
                script.extend_from_slice(&numbered(alloc, lines, number)?)?;
            }
        }
        ScriptPiece::Made {
            seed,
            sessions,
            requests,
        } => {
            let made = made(alloc, *seed, *sessions, *requests)?;
            script.extend_from_slice(&made)?;
        }
        ScriptPiece::Filled { count, byte } => {
            for _ in 0..*count {
                script.push(*byte)?;
            }
        }
        ScriptPiece::Bytes { bytes } => script.extend_from_slice(bytes)?,
    }
    Ok(())
}

/// Adds these lines, each with its line feed.
pub fn add_lines(text: &mut Vec<u8>, lines: &[&str]) -> Result<(), AllocError> {
    for line in lines {
        text.extend_from_slice(line.as_bytes())?;
        text.push(b'\n')?;
    }
    Ok(())
}

/// These lines, with a number in the place of each pair of braces.
pub fn numbered(alloc: Global, lines: &[&str], number: u64) -> Result<Vec<u8>, AllocError> {
    let digits = format!(in alloc; "{number}")?;
    let mut text = Vec::new(alloc);
    for line in lines {
        add_numbered(&mut text, line, &digits)?;
        text.push(b'\n')?;
    }
    Ok(text)
}

fn add_numbered(text: &mut Vec<u8>, line: &str, digits: &str) -> Result<(), AllocError> {
    let mut is_first = true;
    for part in line.split("{}") {
        if !is_first {
            text.extend_from_slice(digits.as_bytes())?;
        }
        is_first = false;
        text.extend_from_slice(part.as_bytes())?;
    }
    Ok(())
}

fn made(alloc: Global, seed: u32, sessions: u32, requests: u32) -> Result<Vec<u8>, Wrong> {
    if seed >= 2_147_483_648 || sessions > 16 || requests > 2_048 {
        return Err(Wrong::Play {
            what: "no such script is made",
        });
    }
    let script = generate(alloc, seed, sessions, requests)?;
    let mut sink = MemSink::new(alloc, ROOM, Vec::new(alloc))?;
    if print_script(&script, &mut sink).is_err() {
        return Err(Wrong::Play {
            what: "no room for the script",
        });
    }
    Ok(sink.bytes().to_vec(alloc)?)
}
