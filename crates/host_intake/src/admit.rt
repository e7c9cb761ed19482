//! The next record is taken.
ghost use Rattle.std.specs.Prelude.{◌≡◌, ◌+◌, ◌<◌, ◌≤◌, [], ◌∷◌, ◌++◌, true, false, Some, None};
ghost use Rattle.std.specs.Prelude.{length, MatchOption, MatchResult};
ghost use Rattle.host_record.specs.Command.{is_last};
ghost use Rattle.host_model.specs.Groups.{is_member};
ghost use Rattle.host_group.specs.Seats.{IsAdmitting, IsFewerOut, admitted, back, cells_id, member};
ghost use Rattle.host_group.specs.Seats.{next, seat_cells, view_of};
ghost use Rattle.host_group.specs.Steps.{IsBusy};
ghost use Rattle.host_rings.specs.RequestEnds.{with_heard};
ghost use Rattle.host_log.specs.History.{Adds, Continues};
ghost use Rattle.host_turn.specs.Seats.{IsOutside, IsSameSeat, IsSeatOutside, book_id, number};
ghost use Rattle.host_turn.specs.Seats.{seat_book, seen_by};
ghost use Rattle.host_intake.specs.declared.entry.IntakeEntry.TheVariants.{Took};
ghost use Rattle.host_intake.specs.declared.entry.Phase.TheVariants.{Closed};
ghost use Rattle.host_intake.specs.Admissions.{FoundNoRecord, IsAdmission, IsMemberAdmitted};
ghost use Rattle.host_intake.specs.Admissions.{IsOpen, IsTakenOrStalled, admission_of, load_in};
ghost use Rattle.host_intake.specs.Entries.{maker_of, takings};
ghost use Rattle.host_intake.specs.State.{plan_of_intake};
ghost use Rattle.host_intake.specs.Told.{is_over, phase_in};

use crate::admission::Admission;
use crate::entry::Phase;
use crate::intake::Intake;
use crate::judge::{Judged, judge_next};
use crate::ledger::Ledger;
use crate::waiting::Waiting;
use host_frames::Pages;
use host_group::{CellBusy, CellSeat, Cells};
use host_memory::Memory;
use host_model::Verdict;
use host_record::Request;
use host_rings::{Envelope, Note};
use host_turn::{Book, BookSeat};
use std::sync::Wait;

impl Intake {
    /// The intake knows from here on that what the note tells was sent.
    pub fn hear(&mut self, note: Note)
        requires { note.ring ≡ self.old.taker.ring }
        ensures heard { self.new
            ≡ record self.old { taker = with_heard self.old.taker note.pushed } }
        ensures plan { plan_of_intake self.new ≡ plan_of_intake self.old }
    {
        self.taker.hear(note);
    }

    /// Takes the next record, if it may be taken and there is one: it is popped, admitted to its
    /// group, judged on the buffer history, and pins or closes its buffer. `seat` is the hand's own
    /// seat at the memory's book; it has then seen what the record did to its buffer.
    pub fn admit_next<R: Wait>(
        &mut self,
        rt: &R,
        hand: u32,
        book: &Book<Memory>,
        seat: &mut BookSeat<Memory>,
        cells: &Cells,
    ) -> Admission
        requires book { seat_book self.old.memory_seat ≡ book_id book.now }
        requires cells { seat_cells self.old.cell_seat ≡ cells_id cells.now }
        requires seat { IsSeatOutside book.now seat.old }
        ensures seat { IsSameSeat seat.old seat.new × IsOutside seat.new }
        ensures later { Continues (λ e. e.hand) (number seat.old) (seen_by seat.old)
            (seen_by seat.new) }
        ensures answer { IsAdmission hand self.old self.new seat.new result }
        ensures plan { plan_of_intake self.new ≡ plan_of_intake self.old }
        ensures adds { Adds maker_of hand self.old.entries self.new.entries }
    {
        if self.is_over() {
            return Admission::Finished;
        }
        if self.ledger.is_full() {
            return Admission::AtLimit;
        }
        match self.hold_next(rt) {
            Some(envelope) => self.take_held(rt, hand, book, seat, cells, envelope),
            None => Admission::NoRecord,
        }
    }

    fn is_over(&self) -> bool
        ensures { result ≡ is_over (phase_in self.now.entries) }
    {
        matches!(self.ledger.phase(), Phase::Aborted | Phase::Closed)
    }

    // The record that is held, or the next one, which is then held.
    fn hold_next<R: Wait>(&mut self, rt: &R) -> Option<Envelope>
        requires { is_over (phase_in self.old.entries) ≡ false }
        ensures none { MatchOption result (FoundNoRecord self.old × (self.new ≡ self.old))
            (λ e. self.new.held ≡ Some e) }
        ensures first { MatchOption self.old.held (Unit {0}) (λ e. self.new ≡ self.old) }
        ensures same { self.new ≡ record self.old { held = self.new.held; taker = self.new.taker } }
        ensures ring { self.new.taker.ring ≡ self.old.taker.ring }
    {
        if self.held.is_some() {
            return self.held;
        }
        self.held = self.taker.pop(rt);
        self.held
    }

    // Admits the record that is held to its group, judges it, and takes it.
    fn take_held<R: Wait>(
        &mut self,
        rt: &R,
        hand: u32,
        book: &Book<Memory>,
        seat: &mut BookSeat<Memory>,
        cells: &Cells,
        envelope: Envelope,
    ) -> Admission
        requires book { seat_book self.old.memory_seat ≡ book_id book.now }
        requires cells { seat_cells self.old.cell_seat ≡ cells_id cells.now }
        requires seat { IsSeatOutside book.now seat.old }
        requires still { IsOpen self.old }
        requires held { self.old.held ≡ Some envelope }
        ensures seat { IsSameSeat seat.old seat.new × IsOutside seat.new }
        ensures later { Continues (λ e. e.hand) (number seat.old) (seen_by seat.old)
            (seen_by seat.new) }
        ensures answer { IsTakenOrStalled hand self.old self.new seat.new envelope result }
        ensures plan { plan_of_intake self.new ≡ plan_of_intake self.old }
        ensures adds { Adds maker_of hand self.old.entries self.new.entries }
    {
        let request = Request::from_bytes(&envelope.bytes);
        let Ok(right) = admit_member(cells, &mut self.cell_seat, &request, envelope.index) else {
            return Admission::Stalled;
        };
        let judged = judge_next(
            rt,
            hand,
            book,
            &mut self.memory_seat,
            &self.part,
            &self.ledger,
            &envelope,
        );
        book.meet(&mut self.memory_seat, seat);
        take_in(&mut self.held, &mut self.ledger, hand, envelope, &judged);
        if judged.waits {
            self.waiting.push_reserved(Waiting { envelope, right });
            return Admission::Admitted {
                envelope,
                pages: None,
                right: None,
            };
        }
        answer(judged.verdict, envelope, judged.pages, right)
    }
}

// The record is held no more, and that it was taken stands last in the history.
fn take_in(
    held: &mut Option<Envelope>,
    ledger: &mut Ledger,
    hand: u32,
    envelope: Envelope,
    judged: &Judged,
)
    requires index { envelope.index ≡ length (takings ledger.old.entries) }
    requires room { length (takings ledger.old.entries) < ledger.old.room }
    requires limit { load_in ledger.old.entries < 64 }
    requires phase { phase_in ledger.old.entries ≡ Closed → ⊥ }
    ensures held { held.new ≡ None }
    ensures ledger { ledger.new
        ≡ record ledger.old {
          entries = ledger.old.entries
              ++ Took hand envelope judged.now.verdict judged.now.waits judged.now.seen ∷ [];
        } }
{
    *held = None;
    ledger.take(hand, envelope, judged.verdict, judged.waits, judged.seen);
}

fn answer(
    verdict: Verdict,
    envelope: Envelope,
    pages: Option<Pages>,
    right: Option<CellSeat>,
) -> Admission
    ensures { result ≡ admission_of verdict envelope pages right }
{
    match verdict {
        Verdict::Accepted => Admission::Admitted {
            envelope,
            pages,
            right,
        },
        Verdict::Refused(status) => Admission::Refused {
            envelope,
            status,
            right,
        },
    }
}

// A record that is a member is admitted to its group, and its right comes out; a lone one needs
// none.
fn admit_member(
    cells: &Cells,
    seat: &mut CellSeat,
    r: &Request,
    index: u32,
) -> Result<Option<CellSeat>, CellBusy>
    requires seat { IsAdmitting cells.now seat.old }
    requires index { (next seat.old ≤ index) × (index < 4294967295) }
    requires room { IsFewerOut seat.old 64 }
    ensures seat { IsAdmitting cells.now seat.new × (back seat.new ≡ back seat.old) }
    ensures busy { MatchResult result (λ _. Unit {0}) (λ _.
        (is_member r.now ≡ true) × (admitted seat.new ≡ admitted seat.old)
        × (next seat.new ≡ next seat.old) × IsBusy r.now.group (view_of seat.old)) }
    ensures right { MatchResult result
        (λ right. IsMemberAdmitted cells.now seat.old seat.new r.now index right) (λ _. Unit {0}) }
{
    if !r.is_grouped() || r.group > 7 {
        return Ok(None);
    }
    let right = cells.admit(seat, r.group, index, r.reqid, r.is_last())?;
    Ok(Some(right))
}
