// The words of a line.
ghost use Rattle.std.specs.Prelude.{◌≡◌, ◌<◌, [], length, map, get_or, IfOk};
ghost use Rattle.std.specs.List.{list_all};
ghost use Rattle.script_model.specs.Words.{words, is_blank, begins_comment, all_allowed};
ghost use Rattle.script_model.specs.Words.{is_allowed};

use std::alloc::{AllocError, Global};
use std::marker::Model;

fn is_blank(byte: u8) -> bool
    ensures { result ≡ is_blank byte }
{
    byte == b' ' || byte == b'\t'
}

fn begins_comment(word: &[u8]) -> bool
    ensures { result ≡ begins_comment word.now }
{
    match word {
        [first, ..] => *first == b'#',
        [] => false,
    }
}

fn is_allowed(word: &[u8]) -> bool
    ensures { result ≡ list_all is_allowed word.now }
{
    word.iter().all(|b| *b >= 0x21 && *b <= 0x7e)
}

fn are_allowed(words: &[&[u8]]) -> bool
    ensures { result ≡ list_all (λ w. list_all is_allowed w.now) words.now }
{
    words.iter().all(|w| is_allowed(w))
}

/// The words of one line, seen as the list of their bytes.
#[derive(Drop)]
pub struct Line<'a> {
    words: Vec<&'a [u8]>,
}

impl<'a> Model for Line<'a> {
    ghost use Rattle.std.specs.Prelude.{ℕ, List, map};

    ghost Value = { List (List ℕ) };

    ghost view = { λ a. map (λ w. w.now) a.words.items };
}

impl<'a> Line<'a> {
    pub fn new(alloc: Global, line: &'a [u8]) -> Result<Self, AllocError>
        ensures { IfOk result (λ l. l ≡ words line.now) }
    {
        let words = line
            .split(|b| is_blank(*b))
            .filter(|w| !w.is_empty())
            .take_while(|w| !begins_comment(w))
            .collect(alloc)?;
        Ok(Line { words })
    }

    /// How many words there are.
    pub fn count(&self) -> usize
        ensures { result ≡ length self.now }
    {
        self.words.len()
    }

    pub fn word(&self, index: usize) -> &'a [u8]
        requires { index < length self.now }
        ensures { result.now ≡ get_or self.now index [] }
    {
        self.words[index]
    }

    /// Whether each byte of each word is one that may stand there.
    pub fn is_allowed(&self) -> bool
        ensures { result ≡ all_allowed self.now }
    {
        are_allowed(&self.words)
    }
}
