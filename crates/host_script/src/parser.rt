// Reading a script.
ghost use Rattle.script_model.specs.Script.{Parses, ReadsLine, script_of, after_line};
ghost use Rattle.script_model.specs.Words.{words};

use crate::draft::Draft;
use crate::line::Line;
use crate::split::split_line;
use script_model::{ParseError, Script};
use std::alloc::Global;

/// The script that the text means, or the first bad line with its cause. The memory that is taken
/// is in proportion to the script.
pub fn parse(alloc: Global, text: &[u8]) -> Result<Script, ParseError>
    ensures { Parses result (script_of text.now) }
{
    let mut draft = Draft::new(alloc)?;
    let mut number = 0;
    let mut rest = text;
    while !rest.is_empty() {
        let (line, after) = split_line(rest);
        number += 1;
        read_line(alloc, &mut draft, number, line)?;
        rest = after;
    }
    Ok(draft.into_script()?)
}

// Adds what a line says to the draft; the line has that number.
#[tactic(auto, unfolding(script_model::specs::Script::after_line))]
fn read_line(alloc: Global, draft: &mut Draft, number: u64, line: &[u8]) -> Result<(), ParseError>
    ensures { ReadsLine number (after_line draft.old (words line.now)) draft.new result }
{
    let words = Line::new(alloc, line)?;
    if words.count() == 0 {
        return Ok(());
    }
    match draft.meaning(&words) {
        Ok(statement) => {
            draft.add(alloc, statement)?;
            Ok(())
        }
        Err(cause) => Err(ParseError::Bad {
            line: number,
            cause,
        }),
    }
}
