//! The words of a call of the program.

use crate::entry::Entry;
use crate::wrong::Wrong;
use std::alloc::{AllocError, Global};

/// Words, and the status that they alone are to end with, where their line says one.
#[derive(Drop)]
pub struct Call<'a> {
    pub line: u64,
    pub words: Vec<String>,
    /// What tells this call from the others of its case.
    pub with: &'a str,
    pub status: Option<u64>,
}

impl Call<'_> {
    pub fn has_word(&self, word: &str) -> bool {
        self.words.iter().any(|other| other.as_str() == word)
    }
}

/// The calls that a line `words` or `calls` says, if it is one.
pub fn read_calls<'a>(alloc: Global, entry: &Entry<'a>) -> Result<Option<Vec<Call<'a>>>, Wrong> {
    match entry.word(0) {
        "words" => Ok(Some(calls_with(alloc, entry)?)),
        "calls" => Ok(Some(calls_in(alloc, entry)?)),
        _ => Ok(None),
    }
}

// One call with each of the words in braces, or one where there are no braces.
fn calls_with<'a>(alloc: Global, entry: &Entry<'a>) -> Result<Vec<Call<'a>>, Wrong> {
    let mut calls = Vec::new(alloc);
    let Some((before, others)) = entry.rest().split_once('{') else {
        calls.push(Call {
            line: entry.line,
            words: words_of(alloc, entry, entry.rest())?,
            with: "",
            status: None,
        })?;
        return Ok(calls);
    };
    let Some((choices, after)) = others.split_once('}') else {
        return Err(entry.wrong("a brace isn't closed"));
    };
    for with in choices.split_whitespace() {
        let text = format!(in alloc; "{before}{with}{after}")?;
        calls.push(Call {
            line: entry.line,
            words: words_of(alloc, entry, &text)?,
            with,
            status: None,
        })?;
    }
    Ok(calls)
}

// Each line below, which begins with a status.
fn calls_in<'a>(alloc: Global, entry: &Entry<'a>) -> Result<Vec<Call<'a>>, Wrong> {
    let mut calls = Vec::new(alloc);
    let mut line = entry.line;
    for said in &entry.body {
        line = line.saturating_add(1);
        calls.push(call_in(alloc, entry, line, said)?)?;
    }
    Ok(calls)
}

fn call_in<'a>(
    alloc: Global,
    entry: &Entry<'a>,
    line: u64,
    said: &'a str,
) -> Result<Call<'a>, Wrong> {
    let (status, words) = said.split_once(' ').unwrap_or((said, ""));
    match status.parse::<u64>() {
        Ok(status) => Ok(Call {
            line,
            words: words_of(alloc, entry, words)?,
            with: said,
            status: Some(status),
        }),
        Err(_) => Err(Wrong::Line {
            line,
            what: "no status",
        }),
    }
}

fn words_of(alloc: Global, entry: &Entry<'_>, text: &str) -> Result<Vec<String>, Wrong> {
    let mut reader = WordReader::new(alloc);
    for character in text.chars() {
        reader.take(character)?;
    }
    if reader.is_quoted {
        return Err(entry.wrong("a quote isn't closed"));
    }
    reader.end_word()?;
    Ok(reader.words)
}

// Words that were read, and the one that is being read.
#[derive(Drop)]
struct WordReader {
    alloc: Global,
    words: Vec<String>,
    word: Option<String>,
    is_quoted: bool,
    is_escaped: bool,
}

impl WordReader {
    fn new(alloc: Global) -> WordReader {
        WordReader {
            alloc,
            words: Vec::new(alloc),
            word: None,
            is_quoted: false,
            is_escaped: false,
        }
    }

    fn take(&mut self, character: char) -> Result<(), AllocError> {
        if self.is_escaped {
            self.is_escaped = false;
            return self.put(match character {
                'n' => '\n',
                'r' => '\r',
                other => other,
            });
        }
        match character {
            '"' => {
                self.is_quoted = !self.is_quoted;
                self.begin_word();
                Ok(())
            }
            '\\' if self.is_quoted => {
                self.is_escaped = true;
                Ok(())
            }
            ' ' if !self.is_quoted => self.end_word(),
            other => self.put(other),
        }
    }

    fn begin_word(&mut self) {
        if self.word.is_none() {
            self.word = Some(String::new(self.alloc));
        }
    }

    fn put(&mut self, character: char) -> Result<(), AllocError> {
        self.begin_word();
        match &mut self.word {
            Some(word) => word.push(character),
            None => Ok(()),
        }
    }

    fn end_word(&mut self) -> Result<(), AllocError> {
        if let Some(word) = self.word.take() {
            self.words.push(word)?;
        }
        Ok(())
    }
}
