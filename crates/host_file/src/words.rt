//! The words that the system gives the program.

use std::alloc::{Alloc, Global};
use std::env::{self, FillError};
use std::io::ErrorKind;
use std::rt::Env;
use thiserror::Error;

#[derive(Clone, Copy, Debug, PartialEq, Eq, Error)]
pub enum WordsError {
    /// A word isn't UTF-8.
    #[error("a word is no text")]
    NotText,
    #[error("out of memory")]
    Oom,
}

/// The words after the program's name, which may be any bytes.
pub fn program_words<R: Env + Alloc<A = Global>>(rt: &R) -> Result<Vec<String>, WordsError> {
    let words = match env::args(&(AfterName { env: rt }, rt.alloc())) {
        Ok(words) => words.collect(rt.alloc()),
        Err(error) if error.kind() == ErrorKind::InvalidData => return Err(WordsError::NotText),
        Err(_) => return Err(WordsError::Oom),
    };
    words.map_err(|_| WordsError::Oom)
}

// An environment without the program's name among its words.
#[derive(Drop)]
struct AfterName<'a, R> {
    env: &'a R,
}

impl<R: Env> Env for AfterName<'_, R> {
    fn arg(&self, i: usize, buf: &mut [u8]) -> Result<usize, FillError> {
        match i.checked_add(1) {
            Some(i) => self.env.arg(i, buf),
            None => Err(FillError::NotPresent),
        }
    }

    fn var(&self, name: &str, buf: &mut [u8]) -> Result<usize, FillError> {
        self.env.var(name, buf)
    }

    fn var_at(&self, i: usize, buf: &mut [u8]) -> Result<usize, FillError> {
        self.env.var_at(i, buf)
    }
}
