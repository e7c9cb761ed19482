//! What each command makes of the values under its names.
ghost use Rattle.std.specs.Prelude.{◌≡◌, option_map, option_copied};
ghost use Rattle.host_words.specs.Commands.{block_in, depth_in, list_meaning, load_meaning};
ghost use Rattle.host_words.specs.Commands.{make_meaning, meaning_of, named, run_meaning};
ghost use Rattle.host_words.specs.Commands.{workers_in};
ghost use Rattle.host_words.specs.Matches.{listed_words, texts_in};
ghost use Rattle.host_words.specs.Numbers.{is_set, number, optional};

use crate::Command;
use crate::number::{block_size, number};
use clap::ArgMatches;
use host_block::BlockSize;

/// `run IMAGE`, with its options.
#[tactic(auto, unfolding(crate::specs::Commands::run_meaning))]
pub fn run<'a>(matches: &ArgMatches<'a>) -> Option<Command<'a>>
    ensures { option_map meaning_of result ≡ run_meaning (texts_in matches.now) }
{
    let Some([image]) = matches.get_raw("words") else {
        return None;
    };
    Some(Command::Run {
        image: named(image)?,
        block: block(matches)?,
        workers: workers(matches)?,
        depth: depth(matches)?,
        dry: is_set(matches.get_raw("dry"))?,
        cut: is_set(matches.get_raw("cut"))?,
        steps: is_set(matches.get_raw("steps"))?,
    })
}

/// `list IMAGE`, with its option.
#[tactic(auto, unfolding(crate::specs::Commands::list_meaning))]
pub fn list<'a>(matches: &ArgMatches<'a>) -> Option<Command<'a>>
    ensures { option_map meaning_of result ≡ list_meaning (texts_in matches.now) }
{
    let Some([image]) = matches.get_raw("words") else {
        return None;
    };
    Some(Command::List {
        image: named(image)?,
        block: block(matches)?,
    })
}

/// `make SEED SESSIONS REQUESTS`.
#[tactic(auto, unfolding(crate::specs::Commands::make_meaning))]
pub fn make<'a>(matches: &ArgMatches<'a>) -> Option<Command<'a>>
    ensures { option_map meaning_of result ≡ make_meaning (texts_in matches.now) }
{
    let Some([seed, sessions, requests]) = matches.get_raw("words") else {
        return None;
    };
    Some(Command::Make {
        seed: number(seed, 0, MAX_SEED)?,
        sessions: number(sessions, 1, MAX_SESSIONS)?,
        requests: number(requests, 1, MAX_REQUESTS)?,
    })
}

/// `load IMAGE SEED SESSIONS REQUESTS`, with its options.
#[tactic(auto, unfolding(crate::specs::Commands::load_meaning))]
pub fn load<'a>(matches: &ArgMatches<'a>) -> Option<Command<'a>>
    ensures { option_map meaning_of result ≡ load_meaning (texts_in matches.now) }
{
    let Some([image, seed, sessions, requests]) = matches.get_raw("words") else {
        return None;
    };
    Some(Command::Load {
        image: named(image)?,
        seed: number(seed, 0, MAX_SEED)?,
        sessions: number(sessions, 1, MAX_SESSIONS)?,
        requests: number(requests, 1, MAX_REQUESTS)?,
        block: block(matches)?,
        workers: workers(matches)?,
        depth: depth(matches)?,
    })
}

const MAX_SEED: u32 = 2_147_483_647;

const MAX_SESSIONS: u32 = 16;

const MAX_REQUESTS: u32 = 2_048;

const MAX_WORKERS: u32 = 16;

const MAX_DEPTH: u32 = 128;

// The name of an image isn't empty.
fn named<'a>(word: &&'a str) -> Option<&'a str>
    ensures { option_copied result ≡ named word.now.now }
{
    if word.is_empty() { None } else { Some(*word) }
}

fn block(matches: &ArgMatches<'_>) -> Option<BlockSize>
    ensures { result ≡ block_in (texts_in matches.now) }
{
    match matches.get_raw("block") {
        None | Some([]) => BlockSize::new(512),
        Some([word]) => block_size(word),
        Some(_) => None,
    }
}

fn workers(matches: &ArgMatches<'_>) -> Option<Option<u32>>
    ensures { result ≡ workers_in (texts_in matches.now) }
{
    optional_number(matches.get_raw("workers"), 1, MAX_WORKERS)
}

fn depth(matches: &ArgMatches<'_>) -> Option<Option<u32>>
    ensures { result ≡ depth_in (texts_in matches.now) }
{
    optional_number(matches.get_raw("depth"), 1, MAX_DEPTH)
}

// The value of an option that may be left out, as a number in a range.
fn optional_number(texts: Option<&[&str]>, low: u32, high: u32) -> Option<Option<u32>>
    ensures { result ≡ optional (number low high) (listed_words texts.entry) }
{
    match texts {
        None | Some([]) => Some(None),
        Some([word]) => Some(Some(number(word, low, high)?)),
        Some(_) => None,
    }
}

// Whether an option without a value stands there.
fn is_set(texts: Option<&[&str]>) -> Option<bool>
    ensures { result ≡ is_set (listed_words texts.entry) }
{
    match texts {
        None | Some([]) => Some(false),
        Some([_]) => Some(true),
        Some(_) => None,
    }
}
