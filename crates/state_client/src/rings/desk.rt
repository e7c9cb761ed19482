//! A state that holds the taker of a request ring.
ghost use Rattle.std.specs.Prelude.{◌≡◌, ◌≤◌, ◌<◌, ◌∷◌, ◌++◌, [], length, IfNone, IfOk};
ghost use Rattle.std.specs.Prelude.{MatchOption};
ghost use Rattle.host_block.specs.Lists.{IsPrefix};
ghost use Rattle.host_log.specs.History.{longer};
ghost use Rattle.state_client.specs.Desk.{desk_of, DeskFoundEmpty};

use crate::rings::row::Row;
use host_block::Oom;
use host_rings::{Envelope, Note, Taker};
use std::alloc::Global;
use std::marker::Model;
use std::sync::Wait;

/// A taker with a row for each envelope that it took.
#[derive(Drop)]
pub struct Desk {
    taker: Taker,
    rows: Vec<Row>,
    room: u32,
}

impl Model for Desk {
    ghost use Rattle.state_client.specs.Desk.{DeskState};
    ghost use Rattle.state_client.specs.DeskFields.{desk_state, IsDesk};

    ghost Value = { DeskState };

    ghost view = { desk_state };

    ghost invariant = { IsDesk };
}

impl Desk {
    /// A desk with room for `room` rows.
    pub fn new(alloc: Global, room: u32, taker: Taker) -> Result<Desk, Oom>
        requires fresh { taker.taken ≡ [] }
        requires room { taker.records ≤ room }
        ensures { IfOk result (λ d. d ≡ desk_of taker.ring taker.records [] taker.heard) }
    {
        let Ok(rows) = Vec::with_capacity(alloc, room as usize) else {
            return Err(Oom);
        };
        Ok(Desk { taker, rows, room })
    }

    /// The next envelope, for which a row is kept. With `None` nothing has changed, and what the
    /// desk has taken begins with all that it was told of.
    pub fn next<R: Wait>(&mut self, rt: &R) -> Option<Envelope>
        ensures told { IfNone result (IsPrefix self.old.heard self.old.taken) }
        ensures step { MatchOption result ((self.new ≡ self.old) × DeskFoundEmpty self.old)
            (λ e.
            (e.index ≡ length self.old.taken)
            × (self.new
            ≡ desk_of self.old.ring self.old.records (self.old.taken ++ e ∷ []) self.old.heard)) }
    {
        let envelope = self.taker.pop(rt)?;
        self.rows.push_reserved(Row {
            device_front: envelope.device_front,
        });
        Some(envelope)
    }

    /// The desk is told what was pushed.
    pub fn hear(&mut self, note: Note)
        requires { note.ring ≡ self.old.ring }
        ensures { self.new
            ≡ desk_of self.old.ring self.old.records self.old.taken
            (longer self.old.heard note.pushed) }
    {
        self.taker.hear(note);
    }

    /// How many envelopes it took.
    pub fn taken(&self) -> u32
        ensures { result ≡ length self.now.taken }
    {
        let _room = self.room;
        self.rows.len() as u32
    }

    /// Gives the taker back.
    pub fn into_taker(self) -> Taker
        ensures { (result.ring ≡ self.ring) × (result.taken ≡ self.taken) }
    {
        let Desk {
            taker,
            rows: _rows,
            room: _room,
        } = self;
        taker
    }
}
