//! A hand takes the next record.
ghost use Rattle.std.specs.Prelude.{◌≡◌, MatchOption, is_some};
ghost use Rattle.host_frames.specs.Seats.{pages_pool, pool_id, seat_pool};
ghost use Rattle.host_group.specs.Seats.{cells_id, seat_cells};
ghost use Rattle.host_intake.specs.Entries.{landings, maker_of};
ghost use Rattle.host_intake.specs.State.{plan_of_intake};
ghost use Rattle.host_record.specs.Command.{is_close, opcode};
ghost use Rattle.host_record.specs.Request.{request_of};
ghost use Rattle.host_log.specs.History.{Adds};
ghost use Rattle.host_turn.specs.Seats.{IsOutside, IsSameSeat, IsSeatOutside, book_id, fixed_part};
ghost use Rattle.host_turn.specs.Seats.{seat_book, seen_by};
ghost use Rattle.session_client.specs.Hands.{IsHandAt, IsSameHand};
ghost use Rattle.session_client.specs.Tasks.{IsTakenToDo, IsToDo, taken_with};
ghost use Rattle.session_client.specs.declared.task.Task.{Task};

use crate::task::{Taken, Task};
use host_frames::{Pages, Pool, PoolSeat};
use host_group::CellSeat;
use host_intake::{Admission, Intake};
use host_memory::Memory;
use host_record::{Opcode, Request, Status};
use host_rings::Envelope;
use host_session::{SessionHand, SessionShared};
use host_turn::BookSeat;
use std::sync::Wait;

/// Takes the next record. The pages of a buffer that it closed go home.
pub fn take<R: Wait>(
    rt: &R,
    shared: &SessionShared,
    pool: &Pool,
    hand: &mut SessionHand,
    seat: &mut PoolSeat,
    number: u32,
) -> Taken
    requires hand { IsHandAt shared.now (pool_id pool.now) number hand.old }
    requires seat { seat_pool seat.old ≡ pool_id pool.now }
    ensures hand { IsSameHand hand.old hand.new }
    ensures seat { seat_pool seat.new ≡ seat_pool seat.old }
    ensures task { IsTakenToDo (cells_id shared.now.cells) number (seen_by hand.new.intake) result }
    ensures still { (task : Task)
        → IsToDo (cells_id shared.now.cells) number (seen_by hand.old.intake) task
        → IsToDo (cells_id shared.now.cells) number (seen_by hand.new.intake) task }
{
    let mut intake = shared.intake.enter(rt, &mut hand.intake);
    let taken = take_in_turn(
        rt,
        shared,
        pool,
        &mut intake,
        &mut hand.memory,
        seat,
        number,
    );
    shared.intake.leave(&mut hand.intake, intake);
    taken
}

// The same within the turn.
fn take_in_turn<R: Wait>(
    rt: &R,
    shared: &SessionShared,
    pool: &Pool,
    intake: &mut Intake,
    memory: &mut BookSeat<Memory>,
    seat: &mut PoolSeat,
    number: u32,
) -> Taken
    requires book { seat_book intake.old.memory_seat ≡ book_id shared.now.memory }
    requires cells { seat_cells intake.old.cell_seat ≡ cells_id shared.now.cells }
    requires memory { IsSeatOutside shared.now.memory memory.old }
    requires pages { MatchOption (fixed_part memory.old) ⊥ (λ plan. plan.pool ≡ pool_id pool.now) }
    requires seat { seat_pool seat.old ≡ pool_id pool.now }
    ensures memory { IsSameSeat memory.old memory.new × IsOutside memory.new }
    ensures seat { seat_pool seat.new ≡ seat_pool seat.old }
    ensures task { IsTakenToDo (cells_id shared.now.cells) number intake.new.entries result }
    ensures landings { landings intake.new.entries ≡ landings intake.old.entries }
    ensures plan { plan_of_intake intake.new ≡ plan_of_intake intake.old }
    ensures adds { Adds maker_of number intake.old.entries intake.new.entries }
{
    intake.vouch();
    match intake.admit_next(rt, number, &shared.memory, memory, &shared.cells) {
        Admission::Finished => Taken::Over,
        Admission::AtLimit => Taken::Full,
        Admission::NoRecord => Taken::Nothing,
        Admission::Stalled => Taken::Stalled,
        Admission::Refused {
            envelope,
            status,
            right,
        } => Taken::ToDo(Task {
            envelope,
            outcome: status,
            right,
        }),
        Admission::Admitted {
            envelope,
            pages,
            right,
        } => admitted(pool, seat, envelope, pages, right),
    }
}

// An accepted record is to end well. A close without pages waits for pins.
fn admitted(
    pool: &Pool,
    seat: &mut PoolSeat,
    envelope: Envelope,
    pages: Option<Pages>,
    right: Option<CellSeat>,
) -> Taken
    requires pages { MatchOption pages (Unit {0}) (λ p. pages_pool p ≡ pool_id pool.now) }
    requires seat { seat_pool seat.old ≡ pool_id pool.now }
    ensures seat { seat_pool seat.new ≡ seat_pool seat.old }
    ensures task { result ≡ taken_with envelope (is_some pages) right }
{
    if pages.is_none() && is_close(&envelope) {
        return Taken::Waits;
    }
    if let Some(pages) = pages {
        pool.give_back(seat, pages);
    }
    Taken::ToDo(Task {
        envelope,
        outcome: Status::Ok,
        right,
    })
}

fn is_close(envelope: &Envelope) -> bool
    ensures { result ≡ is_close (opcode (request_of envelope.now.bytes)) }
{
    matches!(
        Request::from_bytes(&envelope.bytes).opcode(),
        Some(Opcode::Close)
    )
}
