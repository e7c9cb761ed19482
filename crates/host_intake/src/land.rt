//! Records end, and answers that were kept are handed on.
ghost use Rattle.std.specs.Prelude.{◌≡◌, ◌<◌, [], ◌∷◌, ◌++◌, true, false, length, remove};
ghost use Rattle.std.specs.Prelude.{slice_get, position, IsSome, IsTrue, MatchOption};
ghost use Rattle.std.specs.List.{list_any};
ghost use Rattle.host_model.specs.Log.{request_at};
ghost use Rattle.host_group.specs.Seats.{cells_id, seat_cells};
ghost use Rattle.host_log.specs.History.{Adds};
ghost use Rattle.host_intake.specs.declared.entry.IntakeEntry.TheVariants.{Landed, Passed};
ghost use Rattle.host_intake.specs.Answers.{answer_owed};
ghost use Rattle.host_intake.specs.Entries.{maker_of, requests_of, takings};
ghost use Rattle.host_intake.specs.Members.{is_lander};
ghost use Rattle.host_intake.specs.Rights.{AreSettled};
ghost use Rattle.host_intake.specs.Told.{is_flying, kept_slips};
ghost use Rattle.host_intake.specs.Waits.{HasLeft, is_waiting_at};

use crate::entry::RecordEnd;
use crate::intake::Intake;
use crate::waiting::Waiting;
use host_group::{CellSeat, Cells};
use host_rings::Slip;

impl Intake {
    /// A record ended so, and its right, if it is a member, was settled with that. The answer that
    /// this made due is kept where `kept` says so, unless the session was aborted.
    pub fn landed(
        &mut self,
        hand: u32,
        index: u32,
        end: RecordEnd,
        answer: Option<Slip>,
        kept: bool,
        cells: &Cells,
        right: Option<CellSeat>,
    )
        requires flight { IsTrue (is_flying index self.old.entries) }
        requires waits { list_any (is_waiting_at index) self.old.waiting ≡ false }
        requires hand { IsTrue (is_lander hand index (takings self.old.entries)) }
        requires cells { seat_cells self.old.cell_seat ≡ cells_id cells.now }
        requires right { AreSettled (cells_id cells.now) (requests_of (takings self.old.entries))
            index end right }
        requires answer { answer
            ≡ answer_owed (request_at (requests_of (takings self.old.entries)) index) index end
            right }
        requires kept { kept ≡ true → IsSome answer }
        ensures entry { self.new
            ≡ record self.old {
              entries = self.old.entries ++ Landed hand index end answer kept
                  ∷ [];
              cell_seat = self.new.cell_seat;
            } }
        ensures seat { seat_cells self.new.cell_seat ≡ seat_cells self.old.cell_seat }
        ensures adds { Adds maker_of hand self.old.entries self.new.entries }
    {
        self.ledger.land(hand, index, end, answer, kept);
        if let Some(right) = right {
            cells.join_right(&mut self.cell_seat, right);
        }
    }

    /// The oldest of the kept answers, which stays kept.
    pub fn next_kept(&self) -> Option<Slip>
        ensures { result ≡ slice_get (kept_slips self.now.entries) 0 }
    {
        self.ledger.next_kept()
    }

    /// The oldest answer kept was handed on.
    pub fn passed(&mut self, hand: u32)
        requires { 0 < length (kept_slips self.old.entries) }
        ensures entry { self.new
            ≡ record self.old { entries = self.old.entries ++ Passed hand ∷ [] } }
        ensures adds { Adds maker_of hand self.old.entries self.new.entries }
    {
        self.ledger.pass(hand);
    }

    /// Takes the close of that record, if it waits. Whoever takes it settles it, hands its answer
    /// on, if there is one, and tells that it landed, within the same turn.
    pub fn waiting(&mut self, index: u32) -> Option<Waiting>
        ensures { MatchOption result
            ((list_any (is_waiting_at index) self.old.waiting ≡ false) × (self.new ≡ self.old))
            (λ w. HasLeft index self.old self.new w) }
    {
        let place = place_waiting(&self.waiting, index)?;
        Some(self.waiting.remove(place))
    }
}

// Where the close of that record waits.
fn place_waiting(waiting: &[Waiting], index: u32) -> Option<usize>
    ensures { result ≡ position (is_waiting_at index) waiting.now }
{
    waiting.iter().position(|w| w.envelope.index == index)
}
