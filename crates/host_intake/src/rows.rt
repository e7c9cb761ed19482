//! The rows of the records taken, where they are kept.
ghost use Rattle.std.specs.Prelude.{◌≡◌, ◌<◌, ◌≤◌, [], ◌∷◌, ◌++◌, length, None, Some, IfOk, IfSome};
ghost use Rattle.std.specs.Prelude.{IsSomeAnd, MatchOption};
ghost use Rattle.host_block.specs.Room.{WithRoom};
ghost use Rattle.host_intake.specs.Rows.{IsRowSettled, and_row};

use host_block::Oom;
use host_model::{TakenRow, TakenRows};
use host_record::Status;
use std::alloc::Global;
use std::marker::Model;

/// The rows by their index, and room for them at the end, since rows that are given away can't be
/// written in place.
#[derive(Drop)]
pub(crate) struct Rows {
    rows: Vec<TakenRow>,
    ending: TakenRows,
}

impl Model for Rows {
    ghost use Rattle.std.specs.Prelude.{◌≡◌, ◌≤◌, [], vec_capacity};
    ghost use Rattle.host_block.specs.Room.{WithRoom};
    ghost use Rattle.host_model.specs.declared.row.TakenRow.{TakenRow};

    ghost Value = { WithRoom TakenRow };

    ghost view = { λ r. record { items = r.rows.items; room = r.ending.room } };

    ghost invariant = { λ r. (r.ending.room ≤ vec_capacity r.rows) × (r.ending.items ≡ []) };
}

impl Rows {
    /// No rows yet, and room for so many.
    pub(crate) fn new(alloc: Global, room: u32) -> Result<Rows, Oom>
        ensures { IfOk result (λ r. r ≡ record { items = []; room = room }) }
    {
        let Ok(rows) = Vec::with_capacity(alloc, room as usize) else {
            return Err(Oom);
        };
        let ending = TakenRows::with_room(alloc, room as u64)?;
        Ok(Rows { rows, ending })
    }

    fn push(&mut self, row: TakenRow)
        requires { length self.old.items < self.old.room }
        ensures { self.new ≡ and_row row self.old }
    {
        self.rows.push_reserved(row);
    }

    fn settle(&mut self, index: u32, outcome: Status)
        requires { index < length self.old.items }
        ensures { IsRowSettled index outcome self.old self.new }
    {
        self.rows[index as usize].outcome = outcome;
    }

    /// The rows as a list.
    pub(crate) fn into_list(self) -> TakenRows
        requires { length self.items ≤ self.room }
        ensures { result ≡ self }
    {
        let Rows { rows, ending } = self;
        with_rows(ending, rows)
    }
}

/// A record was taken: where rows are kept, its row is added.
pub(crate) fn push_row(rows: &mut Option<Rows>, row: TakenRow)
    requires { IfSome rows.old (λ r. length r.items < r.room) }
    ensures { MatchOption rows.old (rows.new ≡ None) (λ r. rows.new ≡ Some (and_row row r)) }
{
    if let Some(kept) = rows {
        kept.push(row);
    }
}

/// A record ended: where rows are kept, its row has this outcome.
pub(crate) fn settle_row(rows: &mut Option<Rows>, index: u32, outcome: Status)
    requires { IfSome rows.old (λ r. index < length r.items) }
    ensures { MatchOption rows.old (rows.new ≡ None)
        (λ r. IsSomeAnd rows.new (λ settled. IsRowSettled index outcome r settled)) }
{
    if let Some(kept) = rows {
        kept.settle(index, outcome);
    }
}

fn with_rows(mut all: TakenRows, rows: Vec<TakenRow>) -> TakenRows
    requires { (all.items ≡ []) × (length rows.items ≤ all.room) }
    ensures { result ≡ record { items = rows.items; room = all.room } }
{
    for row in &rows {
        all.push(*row);
    }
    all
}
