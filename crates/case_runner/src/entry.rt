//! The lines of the cases: a line that begins with a word, with the lines that belong to it.

use crate::wrong::Wrong;
use hex::decode;
use std::alloc::{AllocError, Global};

/// A line, its words, and the lines after it that begin with `|`, without that.
#[derive(Drop)]
pub struct Entry<'a> {
    /// Counted from 1 in the whole text.
    pub line: u64,
    pub text: &'a str,
    pub words: Vec<&'a str>,
    pub body: Vec<&'a str>,
}

impl<'a> Entry<'a> {
    fn new(alloc: Global, line: u64, text: &'a str) -> Result<Entry<'a>, AllocError> {
        Ok(Entry {
            line,
            text,
            words: text.split_whitespace().collect(alloc)?,
            body: Vec::new(alloc),
        })
    }

    pub fn wrong(&self, what: &'static str) -> Wrong {
        Wrong::Line {
            line: self.line,
            what,
        }
    }

    /// The word at this place, counted from 0; an empty one past the last.
    pub fn word(&self, at: usize) -> &'a str {
        match self.words.get(at) {
            Some(word) => *word,
            None => "",
        }
    }

    /// What follows the first word.
    pub fn rest(&self) -> &'a str {
        match self.text.split_once(' ') {
            Some((_, rest)) => rest,
            None => "",
        }
    }

    /// Whether there are so many words.
    pub fn has_count(&self, count: usize) -> Result<(), Wrong> {
        if self.words.len() == count {
            Ok(())
        } else {
            Err(self.wrong("too few or too many words"))
        }
    }

    pub fn number(&self, at: usize) -> Result<u64, Wrong> {
        match self.word(at).parse::<u64>() {
            Ok(number) => Ok(number),
            Err(_) => Err(self.wrong("no number")),
        }
    }

    pub fn small_number(&self, at: usize) -> Result<u32, Wrong> {
        match self.word(at).parse::<u32>() {
            Ok(number) => Ok(number),
            Err(_) => Err(self.wrong("no number")),
        }
    }

    pub fn byte(&self, at: usize) -> Result<u8, Wrong> {
        match u8::from_str_radix(self.word(at), 16) {
            Ok(byte) => Ok(byte),
            Err(_) => Err(self.wrong("no byte")),
        }
    }

    pub fn bytes(&self, alloc: Global, at: usize) -> Result<Vec<u8>, Wrong> {
        match decode(alloc, self.word(at)) {
            Ok(bytes) => Ok(bytes),
            Err(_) => Err(self.wrong("no bytes")),
        }
    }
}

/// The lines of a text that say something, in order.
pub fn entries_of(alloc: Global, text: &str) -> Result<Vec<Entry<'_>>, AllocError> {
    let mut entries = Vec::new(alloc);
    let mut number = 0u64;
    for line in text.lines() {
        number = number.saturating_add(1);
        add_line(alloc, &mut entries, number, line)?;
    }
    Ok(entries)
}

fn add_line<'a>(
    alloc: Global,
    entries: &mut Vec<Entry<'a>>,
    number: u64,
    line: &'a str,
) -> Result<(), AllocError> {
    if let Some(said) = line.strip_prefix('|')
        && let Some(entry) = entries.last_mut()
    {
        entry.body.push(said.strip_prefix(' ').unwrap_or(said))?;
        return Ok(());
    }
    if line.is_empty() || line.starts_with('#') {
        return Ok(());
    }
    entries.push(Entry::new(alloc, number, line)?)?;
    Ok(())
}
