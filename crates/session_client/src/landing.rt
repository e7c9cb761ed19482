//! A hand ends a record.
ghost use Rattle.std.specs.Prelude.{◌≡◌, true, IsSome};
ghost use Rattle.host_frames.specs.Seats.{pool_id};
ghost use Rattle.host_group.specs.Seats.{cells_id};
ghost use Rattle.host_turn.specs.Seats.{seen_by};
ghost use Rattle.session_client.specs.Hands.{IsHandAt, IsSameHand};
ghost use Rattle.session_client.specs.Tasks.{IsToDo};

use crate::settling::settled;
use crate::task::Task;
use host_frames::Pool;
use host_intake::RecordEnd;
use host_record::Request;
use host_rings::{Slip, SlipSender};
use host_session::{SessionHand, SessionShared};
use std::sync::Wait;

/// Settles a record, pushes the answer that this makes due, and tells that the record landed. Where
/// the ring is full the answer is kept. Tells whether one was pushed.
pub fn land<R: Wait>(
    rt: &R,
    shared: &SessionShared,
    pool: &Pool,
    hand: &mut SessionHand,
    number: u32,
    task: Task,
) -> bool
    requires hand { IsHandAt shared.now (pool_id pool.now) number hand.old }
    requires task { IsToDo (cells_id shared.now.cells) number (seen_by hand.old.intake) task }
    ensures hand { IsSameHand hand.old hand.new }
{
    let _pool = pool;
    let Task {
        envelope,
        outcome,
        right,
    } = task;
    let request = Request::from_bytes(&envelope.bytes);
    let end = RecordEnd {
        outcome,
        device_front: envelope.device_front,
        memory_front: envelope.memory_front,
    };
    let (answer, right) = settled(&shared.cells, &request, envelope.index, end, right);
    let kept = is_refused(rt, &mut hand.sender, answer);
    let mut intake = shared.intake.enter(rt, &mut hand.intake);
    intake.vouch();
    intake.landed(
        number,
        envelope.index,
        end,
        answer,
        kept,
        &shared.cells,
        right,
    );
    shared.intake.leave(&mut hand.intake, intake);
    answer.is_some() && !kept
}

// Pushes the answer, and tells whether there was one for which the ring had no room.
fn is_refused<R: Wait>(rt: &R, sender: &mut SlipSender, answer: Option<Slip>) -> bool
    ensures sender { (sender.new.ring ≡ sender.old.ring) × (sender.new.number ≡ sender.old.number) }
    ensures kept { result ≡ true → IsSome answer }
{
    match answer {
        Some(slip) => sender.push(rt, slip).is_err(),
        None => false,
    }
}
