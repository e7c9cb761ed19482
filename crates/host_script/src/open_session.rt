// The session that is being read.
ghost use Rattle.std.specs.Prelude.{◌≡◌, ◌++◌, ◌∷◌, [], IfOk, OnOk, is_none};
ghost use Rattle.script_model.specs.Owed.{owed as owed_by};
ghost use Rattle.script_model.specs.Draft.{closed_plan};
ghost use Rattle.script_model.specs.Plans.{plan_of};

use crate::append::append;
use crate::owing::owes;
use host_block::{Oom, ReservedList};
use host_record::Finish;
use script_model::{ScriptLine, ScriptLines, SessionScript};
use std::alloc::Global;
use std::marker::Model;

/// A session whose lines are still read, with its finish once its end was read.
#[derive(Drop)]
pub struct OpenSession {
    part: u32,
    lines: ScriptLines,
    finish: Option<Finish>,
    // How many answers are owed by the records of the lines.
    owed: u64,
}

impl Model for OpenSession {
    ghost use Rattle.std.specs.Prelude.{◌≡◌};
    ghost use Rattle.script_model.specs.Draft.{OpenPlan};
    ghost use Rattle.script_model.specs.Owed.{owed as owed_by};

    ghost Value = { OpenPlan };

    ghost view = { λ s. record { part = s.part; lines = s.lines.items; finish = s.finish } };

    ghost invariant = { λ s. s.owed ≡ owed_by s.lines.items };
}

impl OpenSession {
    #[tactic(auto, unfolding(script_model::specs::Owed::owed))]
    pub fn new(alloc: Global, part: u32) -> Result<Self, Oom>
        ensures { IfOk result (λ s. s ≡ record { part = part; lines = []; finish = None }) }
    {
        let lines = ReservedList::with_room(alloc, 0)?;
        Ok(OpenSession {
            part,
            lines,
            finish: None,
            owed: 0,
        })
    }

    /// Adds a line.
    pub fn push(&mut self, line: ScriptLine) -> Result<(), Oom>
        ensures { OnOk result (self.new ≡ record self.old { lines = self.old.lines ++ line ∷ [] }) }
    {
        append(&mut self.lines, line)?;
        let count = self.lines.len();
        prove!(self.owed < count);
        if owes(&line) {
            self.owed += 1;
        }
        Ok(())
    }

    pub fn set_finish(&mut self, finish: Finish)
        ensures { self.new ≡ record self.old { finish = Some finish } }
    {
        self.finish = Some(finish);
    }

    /// Whether its end wasn't read yet.
    pub fn is_open(&self) -> bool
        ensures { result ≡ is_none self.now.finish }
    {
        self.finish.is_none()
    }

    /// How many answers are owed by its records.
    pub fn owed(&self) -> u64
        ensures { result ≡ owed_by self.now.lines }
    {
        self.owed
    }

    /// What was read; a session without an end is drained.
    pub fn into_script(self) -> SessionScript
        ensures { plan_of result ≡ closed_plan self }
    {
        SessionScript {
            part: self.part,
            lines: self.lines,
            finish: self.finish.unwrap_or(Finish::Drain),
        }
    }
}
