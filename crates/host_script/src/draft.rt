// A script as far as it was read.
ghost use Rattle.std.specs.Prelude.{◌≡◌, ◌<◌, IfOk, OnOk, length};
ghost use Rattle.script_model.specs.Draft.{nothing_yet, plans, added, may_stand, may_wait};
ghost use Rattle.script_model.specs.Draft.{owed_so_far, meaning};
ghost use Rattle.script_model.specs.Plans.{plans_of};

use crate::append::append;
use crate::keyword::keyword_of;
use crate::line::Line;
use crate::open_session::OpenSession;
use host_block::{Oom, ReservedList};
use script_model::{Keyword, Script, ScriptCause, ScriptLine, SessionScripts, Statement};
use std::alloc::Global;
use std::marker::Model;

/// The sessions before, and the one that is being read.
#[derive(Drop)]
pub struct Draft {
    past: SessionScripts,
    current: Option<OpenSession>,
}

impl Model for Draft {
    ghost use Rattle.std.specs.Prelude.{map};
    ghost use Rattle.script_model.specs.Draft.{Draft};
    ghost use Rattle.script_model.specs.Plans.{plan_of};

    ghost Value = { Draft };

    ghost view = { λ d. record { past = map plan_of d.past.items; current = d.current } };
}

impl Draft {
    pub fn new(alloc: Global) -> Result<Self, Oom>
        ensures { IfOk result (λ d. d ≡ nothing_yet) }
    {
        let past = ReservedList::with_room(alloc, 0)?;
        Ok(Draft {
            past,
            current: None,
        })
    }

    // Whether a line that begins with this word may stand here.
    #[tactic(auto, unfolding(script_model::specs::Draft::may_stand))]
    fn may_stand(&self, keyword: Keyword) -> Result<(), ScriptCause>
        ensures { result ≡ may_stand self.now keyword }
    {
        if matches!(keyword, Keyword::Session) {
            return Ok(());
        }
        match &self.current {
            None => Err(ScriptCause::NoSession),
            Some(session) if session.is_open() => Ok(()),
            Some(_) => Err(ScriptCause::AfterEnd),
        }
    }

    fn owed(&self) -> u64
        ensures { result ≡ owed_so_far self.now.current }
    {
        match &self.current {
            None => 0,
            Some(session) => session.owed(),
        }
    }

    #[tactic(auto, unfolding(script_model::specs::Draft::may_wait))]
    fn may_wait(&self, statement: &Statement) -> Result<(), ScriptCause>
        ensures { result ≡ may_wait self.now statement.now }
    {
        match statement {
            Statement::Do {
                line: ScriptLine::WaitFor { total },
            } if u64::from(*total) > self.owed() => Err(ScriptCause::TooMany),
            _ => Ok(()),
        }
    }

    /// What a line says after the draft.
    #[tactic(auto, unfolding(script_model::specs::Draft::meaning))]
    pub fn meaning(&self, line: &Line) -> Result<Statement, ScriptCause>
        requires { 0 < length line.now }
        ensures { result ≡ meaning self.now line.now }
    {
        if !line.is_allowed() {
            return Err(ScriptCause::BadByte);
        }
        let keyword = keyword_of(line.word(0))?;
        self.may_stand(keyword)?;
        let statement = line.statement(keyword)?;
        self.may_wait(&statement)?;
        Ok(statement)
    }

    fn close(&mut self) -> Result<(), Oom>
        ensures { OnOk result (self.new ≡ record { past = plans self.old; current = None }) }
    {
        if let Some(session) = self.current.take() {
            append(&mut self.past, session.into_script())?;
        }
        Ok(())
    }

    /// Adds what a line says.
    #[tactic(auto, unfolding(script_model::specs::Draft::added))]
    pub fn add(&mut self, alloc: Global, statement: Statement) -> Result<(), Oom>
        ensures { OnOk result (self.new ≡ added self.old statement) }
    {
        match statement {
            Statement::Begin { part } => {
                self.close()?;
                self.current = Some(OpenSession::new(alloc, part)?);
            }
            Statement::Do { line } => {
                if let Some(session) = &mut self.current {
                    session.push(line)?;
                }
            }
            Statement::End { finish } => {
                if let Some(session) = &mut self.current {
                    session.set_finish(finish);
                }
            }
        }
        Ok(())
    }

    /// The script, with all that was read.
    pub fn into_script(mut self) -> Result<Script, Oom>
        ensures { IfOk result (λ s. plans_of s ≡ plans self) }
    {
        self.close()?;
        Ok(Script {
            sessions: self.past,
        })
    }
}
