//! The command that the words after the program's name call.
ghost use Rattle.host_run.specs.Words.{Asks, said_by};

use host_words::{Command, WordsError, read_words};
use std::alloc::Global;

/// The command of these words, whose numbers are in their ranges.
pub fn read_command<'a>(alloc: Global, words: &'a [&'a str]) -> Result<Command<'a>, WordsError>
    ensures { Asks (said_by words.entry.now) result }
{
    read_words(alloc, words)
}
