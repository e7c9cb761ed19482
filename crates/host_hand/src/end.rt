// How a record's end is told: it is settled, its answer is handed on or kept, and it lands.
ghost use Rattle.std.specs.Prelude.{◌≡◌, false, true, [], ◌∷◌, IsSome};
ghost use Rattle.host_group.specs.Seats.{cells_id};
ghost use Rattle.host_intake.specs.declared.entry.IntakeEntry.TheVariants.{Landed};
ghost use Rattle.host_intake.specs.Answers.{answer_owed, group_slip, lone_slip};
ghost use Rattle.host_intake.specs.Entries.{Taking, maker_of, place_of};
ghost use Rattle.host_intake.specs.Ledgers.{is_shut};
ghost use Rattle.host_intake.specs.Told.{phase_in};
ghost use Rattle.host_rings.specs.AnswerEnds.{FoundNoRoom};
ghost use Rattle.host_turn.specs.Seats.{IsOutside, IsSameSeat, seen_by};
ghost use Rattle.host_session.specs.Plan.{IsSeatIn, IsShared, SessionPlan, intake_plan};
ghost use Rattle.host_hand.specs.Ends.{HasRightTo, IsRecordEndOf, IsInFlightBy, WasUsed};
ghost use Rattle.host_hand.specs.Ends.{slips_pushed, sender_with_slips};
ghost use Rattle.host_log.specs.Growth.{HasAdded};

use host_group::{CellSeat, Cells, GroupEnd};
use host_intake::{Intake, RecordEnd, own_records_fly};
use host_record::{Request, Response};
use host_rings::{Slip, SlipSender};
use host_session::SessionShared;
use host_turn::BookSeat;
use std::sync::Wait;

/// The answer that a record's end made due, if it made one, and the right that was used.
#[derive(Drop)]
pub(crate) struct Settled {
    pub(crate) answer: Option<Slip>,
    pub(crate) right: Option<CellSeat>,
}

/// Settles a record. A lone one is owed its own answer; a member that of its group, where it is the
/// last to end.
pub(crate) fn settle(
    cells: &Cells,
    request: &Request,
    index: u32,
    end: RecordEnd,
    right: Option<CellSeat>,
) -> Settled
    requires { HasRightTo (cells_id cells.now) request.now index right }
    ensures used { WasUsed (cells_id cells.now) request.now end right result.right }
    ensures answer { result.answer ≡ answer_owed request.now index end result.right }
{
    let Some(mut right) = right else {
        return Settled {
            answer: Some(lone_answer(request, index, end)),
            right: None,
        };
    };
    let told = cells.settle(
        &mut right,
        request.group,
        index,
        end.outcome,
        end.device_front,
        end.memory_front,
    );
    Settled {
        answer: told.map(|end| group_answer(request.group, end)),
        right: Some(right),
    }
}

// The answer to a lone record.
fn lone_answer(request: &Request, index: u32, end: RecordEnd) -> Slip
    ensures { result ≡ lone_slip request.now index end }
{
    let response = Response {
        status: end.outcome.number(),
        reqid: request.reqid,
        group: 0,
        count: 1,
    };
    Slip {
        index,
        bytes: response.to_bytes(),
        device_front: end.device_front,
        memory_front: end.memory_front,
    }
}

// The answer to a group that ended so.
fn group_answer(group: u16, end: GroupEnd) -> Slip
    ensures { result ≡ group_slip group end }
{
    let response = Response {
        status: end.status.number(),
        reqid: end.reqid,
        group,
        count: end.count,
    };
    Slip {
        index: end.index,
        bytes: response.to_bytes(),
        device_front: end.device_front,
        memory_front: end.memory_front,
    }
}

/// Hands an answer on, if there is one. Tells whether it is to be kept, since the ring gave it
/// back.
pub(crate) fn push_answer<R: Wait>(rt: &R, sender: &mut SlipSender, answer: Option<Slip>) -> bool
    ensures pushed { sender.new ≡ sender_with_slips sender.old (slips_pushed result answer) }
    ensures kept { result ≡ true → IsSome answer × FoundNoRoom sender.old }
{
    match answer {
        Some(slip) => sender.push(rt, slip).is_err(),
        None => false,
    }
}

/// The record lands.
pub(crate) fn land<R: Wait>(
    rt: &R,
    session: &SessionShared,
    me: u32,
    seat: &mut BookSeat<Intake>,
    index: u32,
    end: RecordEnd,
    answer: Option<Slip>,
    kept: bool,
    right: Option<CellSeat>,
)
    requires seat { (p : SessionPlan) × IsShared p session.now
        × IsSeatIn p.intake (intake_plan p) me seat.old }
    requires taken { (t : Taking) × (place_of t ≡ index)
        × IsInFlightBy me index (seen_by seat.old) t
        × IsRecordEndOf (cells_id session.now.cells) (seen_by seat.old) t end answer right }
    requires kept { kept ≡ true → IsSome answer }
    ensures seat { IsSameSeat seat.old seat.new × IsOutside seat.new }
    ensures landed { HasAdded maker_of me (Landed me index end answer kept ∷ []) (seen_by seat.old)
        (seen_by seat.new) }
    ensures phase { is_shut (phase_in (seen_by seat.new)) ≡ false }
{
    let mut intake = session.intake.enter(rt, seat);
    intake.vouch();
    own_records_fly();
    intake.landed(me, index, end, answer, kept, &session.cells, right);
    session.intake.leave(seat, intake);
}
