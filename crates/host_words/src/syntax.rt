//! What `clap` is told of each command. An option is taken as often as it stands there, and one
//! argument takes every word of no option.
ghost use Rattle.std.specs.Prelude.{◌≡◌, IfOk, codes, false};
ghost use Rattle.clap.specs.Simple.{app_of};
ghost use Rattle.clap.specs.Walk.{rule_of};
ghost use Rattle.host_words.specs.Commands.{list_options, load_options, make_options, run_options};
ghost use Rattle.host_words.specs.Syntax.{bare, plain_rule, syntax, valued_rule, words_rule};

use clap::{Arg, ArgAction, Command};
use std::alloc::{AllocError, Global};

pub fn run_syntax<'a>(alloc: Global) -> Result<Command<'a>, AllocError>
    ensures { IfOk result (λ command. app_of command ≡ syntax (codes "run") run_options) }
{
    bare(alloc, "run")
        .arg(valued(alloc, "block"))?
        .arg(valued(alloc, "workers"))?
        .arg(valued(alloc, "depth"))?
        .arg(plain(alloc, "dry"))?
        .arg(plain(alloc, "cut"))?
        .arg(plain(alloc, "steps"))?
        .arg(words(alloc))
}

pub fn list_syntax<'a>(alloc: Global) -> Result<Command<'a>, AllocError>
    ensures { IfOk result (λ command. app_of command ≡ syntax (codes "list") list_options) }
{
    bare(alloc, "list")
        .arg(valued(alloc, "block"))?
        .arg(words(alloc))
}

pub fn make_syntax<'a>(alloc: Global) -> Result<Command<'a>, AllocError>
    ensures { IfOk result (λ command. app_of command ≡ syntax (codes "make") make_options) }
{
    bare(alloc, "make").arg(words(alloc))
}

pub fn load_syntax<'a>(alloc: Global) -> Result<Command<'a>, AllocError>
    ensures { IfOk result (λ command. app_of command ≡ syntax (codes "load") load_options) }
{
    bare(alloc, "load")
        .arg(valued(alloc, "block"))?
        .arg(valued(alloc, "workers"))?
        .arg(valued(alloc, "depth"))?
        .arg(words(alloc))
}

// A command without help and version.
fn bare<'a>(alloc: Global, name: &'a str) -> Command<'a>
    ensures { app_of result ≡ bare name.entry.now }
{
    Command::new(alloc, name)
        .disable_help_flag(true)
        .disable_version_flag(true)
}

// An option that takes a value.
fn valued<'a>(alloc: Global, name: &'a str) -> Arg<'a>
    ensures rule { rule_of result ≡ valued_rule name.entry.now }
    ensures local { result.global ≡ false }
{
    Arg::new(alloc, name).long(name).action(ArgAction::Append)
}

// An option that takes none.
fn plain<'a>(alloc: Global, name: &'a str) -> Arg<'a>
    ensures rule { rule_of result ≡ plain_rule name.entry.now }
    ensures local { result.global ≡ false }
{
    Arg::new(alloc, name)
        .long(name)
        .action(ArgAction::Append)
        .num_args(0)
        .default_missing_value("")
}

// The words of no option.
fn words<'a>(alloc: Global) -> Arg<'a>
    ensures rule { rule_of result ≡ words_rule }
    ensures local { result.global ≡ false }
{
    Arg::new(alloc, "words").action(ArgAction::Append)
}
