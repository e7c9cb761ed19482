//! The history of an intake, with what it tells kept beside it.
ghost use Rattle.std.specs.Prelude.{◌≡◌, ◌+◌, ◌<◌, ◌≤◌, [], ◌∷◌, ◌++◌, true, false, if◌then◌else◌};
ghost use Rattle.std.specs.Prelude.{length, slice_get, is_some, None, Some, IfOk, IfSome, IsTrue};
ghost use Rattle.std.specs.VecDeque.{deque_capacity, deque_len};
ghost use Rattle.host_intake.specs.declared.entry.IntakeEntry.TheVariants.{Took, Landed, Passed};
ghost use Rattle.host_intake.specs.declared.entry.IntakeEntry.TheVariants.{Turned};
ghost use Rattle.host_intake.specs.declared.entry.Phase.TheVariants.{Aborted, Closed};
ghost use Rattle.host_intake.specs.Entries.{takings};
ghost use Rattle.host_intake.specs.Ledgers.{is_course, is_taken_open, slips_to_keep};
ghost use Rattle.host_model.specs.Lists.{all_with_before};
ghost use Rattle.host_intake.specs.Told.{is_aborted_phase, phase_in, turns, flights_in, kept_slips};
ghost use Rattle.host_intake.specs.Told.{is_flying, memory_front_in, rows_in};

use crate::entry::{IntakeEntry, Phase, RecordEnd};
use crate::rows::{Rows, push_row, settle_row};
use host_block::Oom;
use host_log::{GhostLog, Listing, SwitchLog};
use host_model::{TakenRow, Verdict};
use host_record::Status;
use host_rings::{Envelope, Slip};
use std::alloc::Global;
use std::collections::VecDeque;
use std::marker::Model;

/// As many records may be in flight, or answers kept, at once.
pub(crate) const LIMIT: u32 = 64;

/// The history, the phase, the numbers of records in flight and taken, the answers kept, and the
/// rows where they are kept.
#[derive(Drop)]
pub(crate) struct Ledger {
    room: u32,
    entries: GhostLog<IntakeEntry>,
    phase: Phase,
    flights: u32,
    kept: VecDeque<Slip>,
    memory_front: u64,
    taken: u32,
    rows: Option<Rows>,
}

impl Model for Ledger {
    ghost use Rattle.std.specs.Prelude.{◌<◌, ◌≤◌, is_some};
    ghost use Rattle.std.specs.VecDeque.{deque_capacity};
    ghost use Rattle.host_intake.specs.Ledgers.{LedgerState, IsLedger};
    ghost use Rattle.host_intake.specs.Rows.{AreRows};

    ghost Value = { LedgerState };

    ghost view = { λ a.
        record { room = a.room; keeps = is_some a.rows; entries = a.entries.items } };

    ghost invariant = { λ a.
        IsLedger a.room a.entries a.phase a.flights a.kept.items a.memory_front
        × AreRows a.room a.entries.items a.taken a.rows × (64 ≤ deque_capacity a.kept)
        × (a.room < 4294967296) };
}

impl Ledger {
    /// An empty history, with room for so many records, whose rows are kept or not.
    pub(crate) fn new(alloc: Global, room: u32, keeps: bool) -> Result<Ledger, Oom>
        ensures { IfOk result (λ a. a ≡ record { room = room; keeps = keeps; entries = [] }) }
    {
        let entries = GhostLog::with_room(3 * room as u64 + 2);
        let Ok(kept) = VecDeque::with_capacity(alloc, LIMIT as usize) else {
            return Err(Oom);
        };
        let rows = new_rows(alloc, room, keeps)?;
        Ok(Ledger {
            room,
            entries,
            phase: Phase::Running,
            flights: 0,
            kept,
            memory_front: 0,
            taken: 0,
            rows,
        })
    }

    pub(crate) fn length(&self) -> u64
        ensures { result ≡ length self.now.entries }
    {
        self.entries.len()
    }

    pub(crate) fn phase(&self) -> Phase
        ensures { result ≡ phase_in self.now.entries }
    {
        self.phase
    }

    pub(crate) fn taken(&self) -> u32
        ensures { result ≡ length (takings self.now.entries) }
    {
        self.taken
    }

    pub(crate) fn flights(&self) -> u32
        ensures { result ≡ flights_in self.now.entries }
    {
        self.flights
    }

    pub(crate) fn kept(&self) -> u32
        ensures { result ≡ length (kept_slips self.now.entries) }
    {
        self.kept.len() as u32
    }

    /// Whether as many records are in flight, or answers kept, as there may be.
    pub(crate) fn is_full(&self) -> bool
        ensures full { result ≡ true
            → flights_in self.now.entries + length (kept_slips self.now.entries) ≡ 64 }
        ensures room { result ≡ false
            → flights_in self.now.entries + length (kept_slips self.now.entries) < 64 }
    {
        self.flights + self.kept.len() as u32 >= LIMIT
    }

    pub(crate) fn memory_front(&self) -> u64
        ensures { result ≡ memory_front_in self.now.entries }
    {
        self.memory_front
    }

    /// The oldest answer kept.
    pub(crate) fn next_kept(&self) -> Option<Slip>
        ensures { result ≡ slice_get (kept_slips self.now.entries) 0 }
    {
        self.kept.front().copied()
    }

    /// The next record was taken.
    pub(crate) fn take(
        &mut self,
        hand: u32,
        envelope: Envelope,
        verdict: Verdict,
        waits: bool,
        seen: u64,
    )
        requires index { envelope.index ≡ length (takings self.old.entries) }
        requires room { length (takings self.old.entries) < self.old.room }
        requires limit { flights_in self.old.entries + length (kept_slips self.old.entries) < 64 }
        requires phase { phase_in self.old.entries ≡ Closed → ⊥ }
        ensures { self.new
            ≡ record self.old
            { entries = self.old.entries ++ Took hand envelope verdict waits seen ∷ [] } }
    {
        self.flights += 1;
        self.memory_front = self.memory_front.max(seen);
        self.taken += 1;
        let row = TakenRow {
            verdict,
            outcome: Status::Ok,
        };
        push_row(&mut self.rows, row);
        self.entries.push(IntakeEntry::Took {
            hand,
            envelope,
            verdict,
            waits,
            seen,
        });
    }

    /// A record in flight ended.
    pub(crate) fn land(
        &mut self,
        hand: u32,
        index: u32,
        end: RecordEnd,
        answer: Option<Slip>,
        kept: bool,
    )
        requires { IsTrue (is_flying index self.old.entries) }
        ensures entry { self.new
            ≡ record self.old
            { entries = self.old.entries ++ Landed hand index end answer kept ∷ [] } }
        ensures limit { flights_in self.new.entries + length (kept_slips self.new.entries) ≤ 64 }
    {
        self.flights -= 1;
        settle_row(&mut self.rows, index, end.outcome);
        keep(&mut self.kept, self.phase, kept, answer);
        self.entries.push(IntakeEntry::Landed {
            hand,
            index,
            end,
            answer,
            kept,
        });
    }

    /// The oldest answer kept leaves.
    pub(crate) fn pass(&mut self, hand: u32)
        requires { 0 < length (kept_slips self.old.entries) }
        ensures { self.new ≡ record self.old { entries = self.old.entries ++ Passed hand ∷ [] } }
    {
        self.kept.pop_front();
        self.entries.push(IntakeEntry::Passed { hand });
    }

    /// The session is in another phase now.
    pub(crate) fn turn(&mut self, hand: u32, phase: Phase)
        requires course { IsTrue (is_course (turns self.old.entries ++ phase ∷ [])) }
        requires over { phase ≡ Closed → flights_in self.old.entries ≡ 0 }
        requires other { is_aborted_phase phase ≡ false }
        ensures { self.new
            ≡ record self.old { entries = self.old.entries ++ Turned hand phase ∷ [] } }
    {
        self.phase = phase;
        self.entries.push(IntakeEntry::Turned { hand, phase });
    }

    /// The session is aborted, and the answers kept are dropped.
    pub(crate) fn abort(&mut self, hand: u32)
        requires { IsTrue (is_course (turns self.old.entries ++ Aborted ∷ [])) }
        ensures { self.new
            ≡ record self.old { entries = self.old.entries ++ Turned hand Aborted ∷ [] } }
    {
        self.phase = Phase::Aborted;
        self.kept.clear();
        self.entries.push(IntakeEntry::Turned {
            hand,
            phase: Phase::Aborted,
        });
    }

    /// The rows of the records taken, by their index.
    pub(crate) fn into_rows(self) -> SwitchLog<TakenRow>
        ensures rows { result.items ≡ rows_in self.entries }
        ensures kept { result.kept ≡ self.keeps }
        ensures before_close { IsTrue (all_with_before is_taken_open self.entries) }
    {
        let told = SwitchLog::told(&self);
        let Ledger { rows, .. } = self;
        match rows {
            Some(rows) => SwitchLog::of_list(rows.into_list()),
            None => told,
        }
    }
}

impl Listing for Ledger {
    ghost use Rattle.host_intake.specs.Told.{rows_in};

    type Entry = TakenRow;

    ghost entries = { λ a. rows_in a.entries };

    fn count(&self) -> u64 {
        self.taken as u64
    }
}

fn new_rows(alloc: Global, room: u32, keeps: bool) -> Result<Option<Rows>, Oom>
    ensures { IfOk result
        (λ rows. rows ≡ (if keeps then Some (record { items = []; room = room }) else None)) }
{
    if !keeps {
        return Ok(None);
    }
    Ok(Some(Rows::new(alloc, room)?))
}

// The answer, if there is one, stands last, where it is to be kept and the session wasn't aborted.
fn keep(slips: &mut VecDeque<Slip>, phase: Phase, kept: bool, answer: Option<Slip>)
    requires { deque_len slips.old < deque_capacity slips.old }
    ensures items { slips.new.items ≡ slips.old.items ++ slips_to_keep phase kept answer }
    ensures capacity { deque_capacity slips.new ≡ deque_capacity slips.old }
{
    if !kept || phase == Phase::Aborted {
        return;
    }
    if let Some(slip) = answer {
        let Ok(()) = slips.push_back(slip) else {
            unreachable!()
        };
    }
}
