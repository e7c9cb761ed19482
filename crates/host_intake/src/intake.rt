//! The state of one session's intake.
ghost use Rattle.std.specs.Prelude.{◌≡◌, ◌≤◌, [], None, length, IfOk, IsTrue};
ghost use Rattle.host_model.specs.Lists.{all_with_before};
ghost use Rattle.host_group.specs.Seats.{IsAdmittingOf, IsNoneOut, seat_cells, admitted, back};
ghost use Rattle.host_group.specs.Seats.{next};
ghost use Rattle.host_turn.specs.Seats.{IsOutside, own_entries};
ghost use Rattle.host_intake.specs.declared.entry.Phase.TheVariants.{Closed};
ghost use Rattle.host_intake.specs.Entries.{maker_of, takings};
ghost use Rattle.host_intake.specs.Intaken.{IsIntake};
ghost use Rattle.host_intake.specs.Ledgers.{is_taken_open};
ghost use Rattle.host_intake.specs.State.{IsForAdmissions, plan_of_intake};
ghost use Rattle.host_intake.specs.Told.{flights_in, kept_slips, memory_front_in, phase_in};
ghost use Rattle.host_intake.specs.Told.{rows_in};

use crate::entry::{IntakeEntry, Phase};
use crate::ledger::{LIMIT, Ledger};
use crate::parts::IntakeParts;
use crate::plan::IntakePlan;
use crate::waiting::Waiting;
use host_block::{BlockSize, Oom, Range};
use host_group::CellSeat;
use host_memory::Memory;
use host_rings::{Envelope, Taker};
use host_turn::{BookSeat, Story};
use std::alloc::Global;
use std::marker::Model;

/// A session's state, for a book to hand round: its records are popped, judged and taken in order,
/// and end with an answer that is handed on or kept.
///
/// Contracts see the history, and what only the holder of the turn uses: the taker of the session's
/// requests, the admissions' seat at the book of its buffers, and the admitting seat of its cells.
/// No call but `new` takes memory.
#[derive(Drop)]
pub struct Intake {
    pub(crate) part: Range,
    pub(crate) size: BlockSize,
    pub(crate) ledger: Ledger,
    pub(crate) held: Option<Envelope>,
    pub(crate) waiting: Vec<Waiting>,
    pub(crate) taker: Taker,
    pub(crate) memory_seat: BookSeat<Memory>,
    pub(crate) cell_seat: CellSeat,
}

impl Model for Intake {
    ghost use Rattle.host_intake.specs.State.{IntakeState};
    ghost use Rattle.host_intake.specs.IntakeFields.{intake_state, IsIntakeKept};

    ghost Value = { IntakeState };

    ghost view = { intake_state };

    ghost invariant = { IsIntakeKept };
}

impl Story for Intake {
    type Entry = IntakeEntry;

    type Fixed = IntakePlan;

    ghost story = { λ s. s.entries };

    ghost maker = { maker_of };

    ghost fixed = { plan_of_intake };

    fn length(&self) -> u64 {
        self.ledger.length()
    }
}

impl Intake {
    /// An intake that has taken nothing, for at most `room` records, whose rows are kept or not. It
    /// has `Oom` for an answer only for want of memory.
    pub fn new(
        alloc: Global,
        part: Range,
        size: BlockSize,
        room: u32,
        keeps: bool,
        taker: Taker,
        memory_seat: BookSeat<Memory>,
        cell_seat: CellSeat,
    ) -> Result<Intake, Oom>
        requires taker { (taker.taken ≡ []) × (taker.records ≤ room) }
        requires memory { IsOutside memory_seat × IsForAdmissions room memory_seat
            × (own_entries (λ e. e.hand) memory_seat ≡ []) }
        requires cells { IsAdmittingOf (seat_cells cell_seat) cell_seat × (admitted cell_seat ≡ [])
            × (back cell_seat ≡ []) × (next cell_seat ≡ 0) }
        ensures { IfOk result (λ s. s ≡ record {
          part = part;
          size = size;
          room = room;
          keeps = keeps;
          entries = [];
          held = None;
          waiting = [];
          taker = taker;
          memory_seat = memory_seat;
          cell_seat = cell_seat;
        }) }
    {
        let ledger = Ledger::new(alloc, room, keeps)?;
        let Ok(waiting) = Vec::with_capacity(alloc, LIMIT as usize) else {
            return Err(Oom);
        };
        Ok(Intake {
            part,
            size,
            ledger,
            held: None,
            waiting,
            taker,
            memory_seat,
            cell_seat,
        })
    }

    /// How far the session has come.
    pub fn phase(&self) -> Phase
        ensures { result ≡ phase_in self.now.entries }
    {
        self.ledger.phase()
    }

    /// How many records were taken.
    pub fn taken(&self) -> u32
        ensures { result ≡ length (takings self.now.entries) }
    {
        self.ledger.taken()
    }

    /// How many records were taken and have not ended.
    pub fn flights(&self) -> u32
        ensures { result ≡ flights_in self.now.entries }
    {
        self.ledger.flights()
    }

    /// How many answers are kept.
    pub fn kept(&self) -> u32
        ensures { result ≡ length (kept_slips self.now.entries) }
    {
        self.ledger.kept()
    }

    /// The length of the longest buffer history on which a verdict was judged; 0 before that.
    pub fn memory_front(&self) -> u64
        ensures { result ≡ memory_front_in self.now.entries }
    {
        self.ledger.memory_front()
    }

    /// Says what is true of every intake. It does nothing.
    pub fn vouch(&self)
        ensures { IsIntake self.now }
    {
        let _held = &self.held;
    }

    /// Ends the intake.
    pub fn into_parts(self) -> IntakeParts
        requires { phase_in self.entries ≡ Closed }
        ensures rows { result.rows.items ≡ rows_in self.entries }
        ensures kept { result.rows.kept ≡ self.keeps }
        ensures taker { result.taker ≡ self.taker }
        ensures memory_seat { result.memory_seat ≡ self.memory_seat }
        ensures cell_seat { result.cell_seat ≡ self.cell_seat }
        ensures none_out { IsNoneOut result.cell_seat }
        ensures whole { IsIntake self }
        ensures before_close { IsTrue (all_with_before is_taken_open self.entries) }
    {
        let Intake {
            ledger,
            taker,
            memory_seat,
            cell_seat,
            ..
        } = self;
        IntakeParts {
            rows: ledger.into_rows(),
            taker,
            memory_seat,
            cell_seat,
        }
    }
}
