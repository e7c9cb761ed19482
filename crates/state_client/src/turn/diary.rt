//! A state with a history.
ghost use Rattle.std.specs.Prelude.{◌≡◌, ◌∷◌, [], ◌++◌, MatchResult};
ghost use Rattle.host_log.specs.History.{Adds};

use host_turn::Story;
use std::alloc::{AllocError, Global};

/// Who wrote, and what.
#[derive(Debug, Drop, PartialEq)]
pub struct Note {
    pub author: u32,
    pub number: u32,
}

/// Notes on one topic.
#[derive(Drop)]
pub struct Diary {
    pub topic: u32,
    pub notes: Vec<Note>,
}

impl Story for Diary {
    type Entry = Note;

    type Fixed = u32;

    ghost story = { λ d. d.notes.items };

    ghost maker = { λ e. e.author };

    ghost fixed = { λ d. d.topic };

    fn length(&self) -> u64 {
        self.notes.len() as u64
    }
}

impl Diary {
    pub fn new(alloc: Global, topic: u32) -> Diary
        ensures { (result.topic ≡ topic) × (result.notes.items ≡ []) }
    {
        Diary {
            topic,
            notes: Vec::new(alloc),
        }
    }

    pub fn write(&mut self, author: u32, number: u32) -> Result<(), AllocError>
        ensures wrote { MatchResult result (λ _.
            self.new.notes.items
            ≡ self.old.notes.items ++ record { author = author; number = number } ∷ [])
            (λ _. self.new.notes.items ≡ self.old.notes.items) }
        ensures adds { Adds (λ e. e.author) author self.old.notes.items self.new.notes.items }
        ensures topic { self.new.topic ≡ self.old.topic }
    {
        self.notes.push(Note { author, number })?;
        Ok(())
    }
}
