// The script of a run, read or made.
ghost use Rattle.std.specs.Prelude.{◌≡◌, ◌≤◌, ◌<◌, ◌+◌, length, IsTrue, IsErrOf, IfOk, IfErr};
ghost use Rattle.host_io.specs.Causes.{Rose};
ghost use Rattle.host_start.specs.Reading.{GivesScript, GivesText, IsFit, Makes, Means, TakesMore};
ghost use Rattle.host_start.specs.Refusals.{IsOfScript, IsOfSource};
ghost use Rattle.host_start.specs.declared.error.StartError.TheVariants.{Source as SourceFails};
ghost use Rattle.script_model.specs.Generate.{generated};
ghost use Rattle.script_model.specs.Plans.{plans_of};
ghost use Rattle.script_model.specs.Script.{script_of};

use crate::judge::judge;
use crate::{Limit, StartError};
use host_block::BlockSize;
use host_io::Source;
use host_script::{ParseError, Script, generate, parse};
use std::alloc::Global;

/// The most bytes that a script may have.
const SCRIPT_LIMIT: usize = 1_048_576;

/// Reads a script to its end, or past the limit. Its moved bytes are counted in blocks of this
/// size.
pub fn read_script<S: Source>(
    alloc: Global,
    source: &mut S,
    size: BlockSize,
) -> Result<Script, StartError>
    ensures cause { IfErr result IsOfScript }
    ensures fault { IsErrOf result SourceFails → Rose (S.faults source.old) (S.faults source.new) }
    ensures script { IsTrue (S.tells source.old)
        → GivesScript size (S.left source.old) (S.left source.new) result }
    ensures fit { IfOk result (λ script. IsFit size (plans_of script)) }
{
    let text = take_script(alloc, source)?;
    meant(alloc, &text, size)
}

/// The script that is generated from a seed: so many sessions of so many requests each.
pub fn make_script(
    alloc: Global,
    seed: u32,
    sessions: u32,
    requests: u32,
    size: BlockSize,
) -> Result<Script, StartError>
    requires seed { seed < 2147483648 }
    requires sessions { sessions ≤ 16 }
    requires requests { requests ≤ 2048 }
    ensures cause { IfErr result IsOfScript }
    ensures script { Makes size (generated seed sessions requests) result }
    ensures fit { IfOk result (λ script. IsFit size (plans_of script)) }
{
    let script = generate(alloc, seed, sessions, requests)?;
    judge(script, size)
}

// Takes the whole text, or more bytes than a script may have.
fn take_script<S: Source>(alloc: Global, source: &mut S) -> Result<Vec<u8>, StartError>
    ensures cause { IfErr result IsOfScript }
    ensures fault { IsErrOf result SourceFails → Rose (S.faults source.old) (S.faults source.new) }
    ensures text { IsTrue (S.tells source.old)
        → GivesText (S.left source.old) (S.left source.new) result }
{
    let mut text = Vec::new(alloc);
    while text.len() <= SCRIPT_LIMIT {
        match take_more(source, &mut text) {
            Ok(0) => return Ok(text),
            Ok(_) => (),
            Err(error) => return Err(error),
        }
    }
    Err(StartError::TooLarge {
        what: Limit::ScriptBytes,
    })
}

// Takes some bytes more, and says how many. None are the end.
fn take_more<S: Source>(source: &mut S, text: &mut Vec<u8>) -> Result<usize, StartError>
    ensures cause { IfErr result IsOfSource }
    ensures tells { S.tells source.new ≡ S.tells source.old }
    ensures later { S.faults source.old ≤ S.faults source.new }
    ensures fault { IsErrOf result SourceFails → Rose (S.faults source.old) (S.faults source.new) }
    ensures length { IfOk result (λ n. length text.new.items ≡ length text.old.items + n) }
    ensures more { IsTrue (S.tells source.old)
        → IfOk result
        (TakesMore (S.left source.old) (S.left source.new) text.old.items text.new.items) }
{
    let mut piece = [0u8; 4096];
    let taken = source.take(&mut piece)?;
    text.extend_from_slice(&piece[..taken])?;
    Ok(taken)
}

// The script that a text means.
fn meant(alloc: Global, text: &[u8], size: BlockSize) -> Result<Script, StartError>
    ensures cause { IfErr result IsOfScript }
    ensures no_fault { ¬ IsErrOf result SourceFails }
    ensures means { Means size (script_of text.now) result }
    ensures fit { IfOk result (λ script. IsFit size (plans_of script)) }
{
    match parse(alloc, text) {
        Ok(script) => judge(script, size),
        Err(ParseError::Bad { line, cause }) => Err(StartError::BadScript { line, cause }),
        Err(ParseError::Oom) => Err(StartError::Oom),
    }
}
