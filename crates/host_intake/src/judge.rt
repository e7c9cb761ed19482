//! Records are judged, and pin or close their buffer.
ghost use Rattle.std.specs.Prelude.{◌≡◌, ◌+◌, ◌<◌, [], ◌∷◌, ◌++◌, ◌==◌, ◌&&◌, not, length};
ghost use Rattle.std.specs.Prelude.{MatchOption, is_some};
ghost use Rattle.host_record.specs.Command.{opcode, is_close};
ghost use Rattle.host_model.specs.Verdict.{judged, is_accepted};
ghost use Rattle.host_memory.specs.Held.{page_count_of, standing_in};
ghost use Rattle.host_memory.specs.PagesHeld.{ArePagesOf};
ghost use Rattle.host_memory.specs.Pins.{pins_on};
ghost use Rattle.host_memory.specs.State.{admissions_of, history, block_size_of};
ghost use Rattle.host_log.specs.History.{Adds};
ghost use Rattle.host_turn.specs.Seats.{IsSameSeat, IsSeatOutside, IsOutside, number, seen_by};
ghost use Rattle.host_intake.specs.Admissions.{GivesSeenPages};
ghost use Rattle.host_intake.specs.Entries.{takings};
ghost use Rattle.host_intake.specs.State.{IsForAdmissions};
ghost use Rattle.host_intake.specs.Takings.{AreTaken, made_for, made_under, under};
ghost use Rattle.host_intake.specs.Touching.{IsReadyFor};

use crate::intake::Intake;
use crate::ledger::Ledger;
use host_block::Range;
use host_frames::Pages;
use host_memory::Memory;
use host_model::Verdict;
use host_record::{Opcode, Request};
use host_rings::Envelope;
use host_turn::{Book, BookSeat, Story};
use std::sync::Wait;

/// What became of a record as it was judged.
#[derive(Drop)]
pub(crate) struct Judged {
    pub(crate) verdict: Verdict,
    /// Whether it is a close that waits for pins.
    pub(crate) waits: bool,
    /// The pages of a buffer that it closed and that nothing pins.
    pub(crate) pages: Option<Pages>,
    /// How long the buffer history was on which it was judged.
    pub(crate) seen: u64,
}

impl Intake {
    /// The verdict on a record, by the first check that fails. Its buffer is attached where it
    /// stands in the memory for that record.
    pub fn judge(&self, r: &Request, index: u32, memory: &Memory) -> Verdict
        ensures { result
            ≡ judged self.now.part (standing_in r.now.vmoid index (history memory.now)) r.now }
    {
        verdict_on(r, index, &self.part, memory)
    }
}

fn verdict_on(r: &Request, index: u32, part: &Range, memory: &Memory) -> Verdict
    ensures { result ≡ judged part.now (standing_in r.now.vmoid index (history memory.now)) r.now }
{
    Verdict::on(r, part, memory.standing(r.vmoid, index))
}

// The next record is judged on the buffer history, which is no shorter than its envelope's memory
// front, and does to its buffer what taking it does.
pub(crate) fn judge_next<R: Wait>(
    rt: &R,
    hand: u32,
    book: &Book<Memory>,
    seat: &mut BookSeat<Memory>,
    part: &Range,
    ledger: &Ledger,
    envelope: &Envelope,
) -> Judged
    requires seat { IsSeatOutside book.now seat.old × IsForAdmissions ledger.now.room seat.old }
    requires taken { AreTaken part.now (number seat.old) (seen_by seat.old)
        (takings ledger.now.entries) }
    requires index { envelope.now.index ≡ length (takings ledger.now.entries) }
    requires room { length (takings ledger.now.entries) < ledger.now.room }
    ensures seat { IsSameSeat seat.old seat.new × IsOutside seat.new }
    ensures taken { AreTaken part.now (number seat.old) (seen_by seat.new) (takings
        ledger.now.entries
        ++ record {
          hand = hand;
          envelope = envelope.now;
          verdict = result.verdict;
          waits = result.waits;
          seen = result.seen;
        } ∷ []) }
    ensures pages { GivesSeenPages seat.new record {
      hand = hand;
      envelope = envelope.now;
      verdict = result.verdict;
      waits = result.waits;
      seen = result.seen;
    } result.pages }
{
    let index = ledger.taken();
    let request = Request::from_bytes(&envelope.bytes);
    let mut memory = book.enter_past(rt, seat, envelope.memory_front);
    memory.vouch();
    let seen = memory.length();
    let verdict = verdict_on(&request, index, part, &memory);
    let touched = touch(&mut memory, hand, &request, index, verdict);
    book.leave(seat, memory);
    Judged {
        verdict,
        waits: touched.waits,
        pages: touched.pages,
        seen,
    }
}

#[derive(Drop)]
struct Touched {
    waits: bool,
    pages: Option<Pages>,
}

// An accepted read or write pins its buffer, and an accepted close closes it.
fn touch(memory: &mut Memory, hand: u32, r: &Request, index: u32, verdict: Verdict) -> Touched
    requires { IsReadyFor (history memory.old) memory.old.plan.limits.records index r.now verdict }
    ensures entries { memory.new
        ≡ record memory.old {
          entries = memory.old.entries
              ++ under (admissions_of memory.old)
              (made_under verdict (made_for (opcode r.now) index r.now.vmoid hand result.waits));
        } }
    ensures waits { result.waits
        ≡ (is_accepted verdict && is_close (opcode r.now)
        && not (pins_on r.now.vmoid (history memory.old) == 0)) }
    ensures some { is_some result.pages
        ≡ (is_accepted verdict && is_close (opcode r.now) && not result.waits) }
    ensures pages { MatchOption result.pages (Unit {0}) (λ p.
        ArePagesOf memory.old.plan.pool (block_size_of memory.old) (history memory.old) r.now.vmoid
        (page_count_of r.now.vmoid (history memory.old)) p) }
    ensures adds { Adds (λ e. e.hand) (admissions_of memory.old) memory.old.entries
        memory.new.entries }
{
    let Verdict::Accepted = verdict else {
        return Touched {
            waits: false,
            pages: None,
        };
    };
    match r.opcode() {
        Some(Opcode::Read | Opcode::Write) => {
            memory.pin(r.vmoid, index, hand);
            Touched {
                waits: false,
                pages: None,
            }
        }
        Some(Opcode::Close) => {
            let pages = memory.close(r.vmoid, index);
            Touched {
                waits: pages.is_none(),
                pages,
            }
        }
        _ => Touched {
            waits: false,
            pages: None,
        },
    }
}
