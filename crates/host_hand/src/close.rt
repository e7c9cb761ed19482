// A close that waited ends, once the last pin of its buffer is let go of.
ghost use Rattle.std.specs.Prelude.{◌≡◌, ◌+◌, false, true, MatchBool, MatchOption};
ghost use Rattle.host_frames.specs.Seats.{given_back, pages_pool, pool_id, seat_pool};
ghost use Rattle.host_group.specs.Seats.{cells_id, seat_cells};
ghost use Rattle.host_intake.specs.Entries.{maker_of};
ghost use Rattle.host_intake.specs.State.{plan_of_intake};
ghost use Rattle.host_log.specs.History.{Adds};
ghost use Rattle.host_turn.specs.Seats.{IsOutside, IsSameSeat, seen_by};
ghost use Rattle.host_session.specs.Plan.{IsSeatIn, IsShared, SessionPlan, intake_plan};
ghost use Rattle.host_hand.specs.Buffers.{pages_freed};
ghost use Rattle.host_hand.specs.Ends.{HasLandedClose, HasLandedCloseInTurn, LandsFreed};
ghost use Rattle.host_hand.specs.Posts.{KeepsClaims};

use crate::calls::Calls;
use crate::carry::Carried;
use crate::end::{Settled, push_answer, settle};
use crate::errand::Errand;
use host_frames::{Pool, PoolSeat};
use host_group::Cells;
use host_intake::{Intake, RecordEnd, Waiting};
use host_record::{Request, Status};
use host_rings::SlipSender;
use host_session::SessionShared;
use host_turn::BookSeat;
use std::sync::Wait;
use std::thread;

/// Gives pages back that came out of a buffer, and ends the close that waited for them, between the
/// gate's two calls.
pub(crate) fn end_freed<R: Wait, C: Calls>(
    rt: &R,
    gate: &C,
    session: &SessionShared,
    errand: &Errand,
    seat: &mut BookSeat<Intake>,
    sender: &mut SlipSender,
    pool: &Pool,
    pool_seat: &mut PoolSeat,
    carried: Carried,
)
    requires seat { (p : SessionPlan) × IsShared p session.now
        × IsSeatIn p.intake (intake_plan p) errand.now.hand seat.old }
    requires pool { seat_pool pool_seat.old ≡ pool_id pool.now }
    requires pages { MatchOption carried.freed (Unit {0}) (λ f. pages_pool f.1 ≡ pool_id pool.now) }
    ensures seat { IsSameSeat seat.old seat.new × IsOutside seat.new }
    ensures landed { LandsFreed errand.now.hand carried.end.memory_front carried.freed
        (seen_by seat.old) (seen_by seat.new) sender.old sender.new }
    ensures claims { KeepsClaims pool_seat.old pool_seat.new }
    ensures given_back { given_back pool_seat.new
        ≡ given_back pool_seat.old + pages_freed carried.freed }
    ensures gated { MatchOption carried.freed (Unit {0})
        (λ f. C.began gate.now errand.now.session f.0 × C.ended gate.now errand.now.session f.0) }
{
    let Carried { end, freed } = carried;
    if let Some((index, pages)) = freed {
        pool.give_back(pool_seat, pages);
        gate.before(errand.session, index);
        end_close(
            rt,
            session,
            errand.hand,
            seat,
            sender,
            index,
            end.memory_front,
        );
        gate.after(errand.session, index);
    }
}

// Ends the close of that record. It enters again while the close isn't there.
fn end_close<R: Wait>(
    rt: &R,
    session: &SessionShared,
    me: u32,
    seat: &mut BookSeat<Intake>,
    sender: &mut SlipSender,
    index: u32,
    front: u64,
)
    requires seat { (p : SessionPlan) × IsShared p session.now
        × IsSeatIn p.intake (intake_plan p) me seat.old }
    ensures seat { IsSameSeat seat.old seat.new × IsOutside seat.new }
    ensures landed { HasLandedClose me index front (seen_by seat.old) (seen_by seat.new) sender.old
        sender.new }
{
    for _ in rt.forever() {
        let mut intake = session.intake.enter(rt, seat);
        intake.vouch();
        let ended = end_in_turn(rt, &mut intake, &session.cells, me, sender, index, front);
        session.intake.leave(seat, intake);
        if ended {
            return;
        }
        thread::yield_now();
    }
    unreachable!()
}

// Takes the close of that record, if it is there, settles it, hands its answer on and lands it,
// within one turn.
fn end_in_turn<R: Wait>(
    rt: &R,
    intake: &mut Intake,
    cells: &Cells,
    me: u32,
    sender: &mut SlipSender,
    index: u32,
    front: u64,
) -> bool
    requires { seat_cells intake.old.cell_seat ≡ cells_id cells.now }
    ensures answer { MatchBool result (HasLandedCloseInTurn me index front intake.old.entries
        intake.new.entries sender.old sender.new)
        ((intake.new ≡ intake.old) × (sender.new ≡ sender.old)) }
    ensures plan { plan_of_intake intake.new ≡ plan_of_intake intake.old }
    ensures adds { Adds maker_of me intake.old.entries intake.new.entries }
{
    let Some(Waiting { envelope, right }) = intake.waiting(index) else {
        return false;
    };
    let request = Request::from_bytes(&envelope.bytes);
    let end = RecordEnd {
        outcome: Status::Ok,
        device_front: 0,
        memory_front: front,
    };
    let Settled { answer, right } = settle(cells, &request, index, end, right);
    let kept = push_answer(rt, sender, answer);
    intake.landed(me, index, end, answer, kept, cells, right);
    true
}
