//! What the words give to the names of a command.
ghost use Rattle.std.specs.Prelude.{◌≡◌, map, drop, false};
ghost use Rattle.clap.specs.Simple.{app_of};
ghost use Rattle.clap.specs.Values.{kind_of};
ghost use Rattle.host_words.specs.Given.{Options, Word, has_short};
ghost use Rattle.host_words.specs.Matches.{IsGiven, IsProper, refusal_of};
ghost use Rattle.host_words.specs.Syntax.{syntax};

use crate::WordsError;
use clap::error::ErrorKind;
use clap::{ArgMatches, Command, Error};

/// What `clap` finds in the words of a command, of which the first is the command's own.
pub fn given<'a>(command: Command<'a>, words: &'a [&'a str]) -> Result<ArgMatches<'a>, WordsError>
    requires { has_short (map (λ w. w.now) (drop 1 words.now)) ≡ false }
    ensures { (name : Word) (o : Options) → IsProper o → app_of command.entry ≡ syntax name o
        → IsGiven o (map (λ w. w.now) words.entry.now) result }
{
    match command.try_get_matches_from(words) {
        Ok(matches) => Ok(matches),
        Err(error) => Err(refusal(error)),
    }
}

// Of the kinds of `clap`'s errors only one isn't about the words.
fn refusal(error: Error) -> WordsError
    ensures { result ≡ refusal_of (kind_of error) }
{
    match error.kind() {
        ErrorKind::OutOfMemory => WordsError::Oom,
        _ => WordsError::BadWords,
    }
}
