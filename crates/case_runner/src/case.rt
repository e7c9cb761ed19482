//! A case, and how it is read.

use crate::entry::{Entry, entries_of};
use crate::failing::{Failing, Place, read_failing, read_place};
use crate::gate::{Hold, LOOKS, read_hold};
use crate::image::{ImageLine, read_image};
use crate::script::{ScriptPiece, read_script};
use crate::wanted::{WantedLine, read_wanted};
use crate::words::{Call, read_calls};
use crate::wrong::Wrong;
use std::alloc::{AllocError, Global};

/// How many bytes are taken of a text, where the case doesn't say.
const ROOM: u32 = 2_000_000;

#[derive(Drop)]
pub struct Case<'a> {
    pub name: &'a str,
    pub calls: Vec<Call<'a>>,
    pub image: Vec<ImageLine>,
    pub script: Vec<ScriptPiece<'a>>,
    pub fails: Vec<Failing>,
    /// The calls of which one fails in each play.
    pub each: Option<Place>,
    pub holds: Vec<Hold>,
    pub looks: u64,
    pub room: u32,
    /// Of so many plays one has to go as wanted.
    pub attempts: u64,
    /// Something is to differ.
    pub is_to_differ: bool,
    pub wanted: Vec<WantedLine<'a>>,
    /// The first line that is none of a case.
    pub bad: Option<Wrong>,
}

impl<'a> Case<'a> {
    fn new(alloc: Global, name: &'a str) -> Case<'a> {
        Case {
            name,
            calls: Vec::new(alloc),
            image: Vec::new(alloc),
            script: Vec::new(alloc),
            fails: Vec::new(alloc),
            each: None,
            holds: Vec::new(alloc),
            looks: LOOKS,
            room: ROOM,
            attempts: 1,
            is_to_differ: false,
            wanted: Vec::new(alloc),
            bad: None,
        }
    }

    // Adds a line, or notes that it is none of a case.
    fn add(&mut self, alloc: Global, entry: &Entry<'a>) {
        if let Err(wrong) = self.add_line(alloc, entry)
            && self.bad.is_none()
        {
            self.bad = Some(wrong);
        }
    }

    fn add_line(&mut self, alloc: Global, entry: &Entry<'a>) -> Result<(), Wrong> {
        if let Some(calls) = read_calls(alloc, entry)? {
            self.calls.extend(calls)?;
            return Ok(());
        }
        if let Some(line) = read_image(alloc, entry)? {
            self.image.push(line)?;
            return Ok(());
        }
        if let Some(piece) = read_script(alloc, entry)? {
            self.script.push(piece)?;
            return Ok(());
        }
        if read_wanted(alloc, entry, &mut self.wanted)? {
            return Ok(());
        }
        self.add_way(entry)
    }

    // Adds a line that says how the case is played.
    fn add_way(&mut self, entry: &Entry<'a>) -> Result<(), Wrong> {
        match entry.word(0) {
            "fail" => self.fails.push(read_failing(entry)?)?,
            "each" => self.each = Some(read_place(entry)?),
            "hold" => self.holds.push(read_hold(entry)?)?,
            "looks" => self.looks = entry.number(1)?,
            "room" => self.room = entry.small_number(1)?,
            "attempts" => self.attempts = entry.number(1)?,
            "fails" => self.is_to_differ = true,
            _ => return Err(entry.wrong("no line of a case")),
        }
        Ok(())
    }
}

/// The cases of a text.
pub fn cases_of(alloc: Global, text: &str) -> Result<Vec<Case<'_>>, AllocError> {
    let entries = entries_of(alloc, text)?;
    let mut cases = Vec::new(alloc);
    for entry in &entries {
        add_entry(alloc, &mut cases, entry)?;
    }
    Ok(cases)
}

fn add_entry<'a>(
    alloc: Global,
    cases: &mut Vec<Case<'a>>,
    entry: &Entry<'a>,
) -> Result<(), AllocError> {
    if entry.word(0) == "case" {
        cases.push(Case::new(alloc, entry.rest()))?;
        return Ok(());
    }
    match cases.last_mut() {
        Some(case) => case.add(alloc, entry),
        None => {
            let mut case = Case::new(alloc, "no case");
            case.bad = Some(entry.wrong("stands before the first case"));
            cases.push(case)?;
        }
    }
    Ok(())
}
