//! Reads the words of a call.
ghost use Rattle.std.specs.Prelude.{◌≡◌, map, drop, IfOk, Err, Some, None, false};
ghost use Rattle.host_words.specs.Commands.{command_of, list_meaning, list_options, load_meaning};
ghost use Rattle.host_words.specs.Commands.{load_options, make_meaning, make_options, meaning_of};
ghost use Rattle.host_words.specs.Commands.{run_meaning, run_options, ReadsWords, ReadsNamed};
ghost use Rattle.host_words.specs.Given.{has_short};
ghost use Rattle.host_words.specs.declared.words_error.WordsError.TheVariants.{BadWords};

use crate::given::given;
use crate::meaning::{list, load, make, run};
use crate::short::has_short;
use crate::syntax::{list_syntax, load_syntax, make_syntax, run_syntax};
use crate::{Command, WordsError};
use std::alloc::Global;

/// The command that the words after the program's name call.
pub fn read_words<'a>(alloc: Global, words: &'a [&'a str]) -> Result<Command<'a>, WordsError>
    ensures command { IfOk result
        (λ command. command_of (map (λ w. w.now) words.entry.now) ≡ Some (meaning_of command)) }
    ensures refused { result ≡ Err BadWords → command_of (map (λ w. w.now) words.entry.now) ≡ None }
{
    let [name, rest @ ..] = words else {
        return Err(WordsError::BadWords);
    };
    if has_short(rest) {
        return Err(WordsError::BadWords);
    }
    read_named(alloc, name, words)
}

// The command of this name.
fn read_named<'a>(
    alloc: Global,
    name: &str,
    words: &'a [&'a str],
) -> Result<Command<'a>, WordsError>
    requires { has_short (map (λ w. w.now) (drop 1 words.now)) ≡ false }
    ensures { ReadsNamed name.now (map (λ w. w.now) words.entry.now) result }
{
    match name {
        "run" => read_run(alloc, words),
        "list" => read_list(alloc, words),
        "make" => read_make(alloc, words),
        "load" => read_load(alloc, words),
        _ => Err(WordsError::BadWords),
    }
}

fn read_run<'a>(alloc: Global, words: &'a [&'a str]) -> Result<Command<'a>, WordsError>
    requires { has_short (map (λ w. w.now) (drop 1 words.now)) ≡ false }
    ensures { ReadsWords run_options run_meaning (map (λ w. w.now) words.entry.now) result }
{
    let command = run_syntax(alloc)?;
    let matches = given(command, words)?;
    match run(&matches) {
        Some(command) => Ok(command),
        None => Err(WordsError::BadWords),
    }
}

fn read_list<'a>(alloc: Global, words: &'a [&'a str]) -> Result<Command<'a>, WordsError>
    requires { has_short (map (λ w. w.now) (drop 1 words.now)) ≡ false }
    ensures { ReadsWords list_options list_meaning (map (λ w. w.now) words.entry.now) result }
{
    let command = list_syntax(alloc)?;
    let matches = given(command, words)?;
    match list(&matches) {
        Some(command) => Ok(command),
        None => Err(WordsError::BadWords),
    }
}

fn read_make<'a>(alloc: Global, words: &'a [&'a str]) -> Result<Command<'a>, WordsError>
    requires { has_short (map (λ w. w.now) (drop 1 words.now)) ≡ false }
    ensures { ReadsWords make_options make_meaning (map (λ w. w.now) words.entry.now) result }
{
    let command = make_syntax(alloc)?;
    let matches = given(command, words)?;
    match make(&matches) {
        Some(command) => Ok(command),
        None => Err(WordsError::BadWords),
    }
}

fn read_load<'a>(alloc: Global, words: &'a [&'a str]) -> Result<Command<'a>, WordsError>
    requires { has_short (map (λ w. w.now) (drop 1 words.now)) ≡ false }
    ensures { ReadsWords load_options load_meaning (map (λ w. w.now) words.entry.now) result }
{
    let command = load_syntax(alloc)?;
    let matches = given(command, words)?;
    match load(&matches) {
        Some(command) => Ok(command),
        None => Err(WordsError::BadWords),
    }
}
