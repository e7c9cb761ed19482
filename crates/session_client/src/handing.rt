//! A hand hands on an answer that was kept.
ghost use Rattle.std.specs.Prelude.{◌≡◌};
ghost use Rattle.host_frames.specs.Seats.{pool_id};
ghost use Rattle.host_intake.specs.Entries.{maker_of};
ghost use Rattle.host_intake.specs.State.{plan_of_intake};
ghost use Rattle.host_log.specs.History.{Adds};
ghost use Rattle.session_client.specs.Hands.{IsHandAt, IsSameHand};

use host_frames::Pool;
use host_intake::Intake;
use host_rings::SlipSender;
use host_session::{SessionHand, SessionShared};
use std::sync::Wait;

/// Hands on the oldest answer kept, if there is one and the ring has room.
pub fn hand_on<R: Wait>(
    rt: &R,
    shared: &SessionShared,
    pool: &Pool,
    hand: &mut SessionHand,
    number: u32,
) -> bool
    requires hand { IsHandAt shared.now (pool_id pool.now) number hand.old }
    ensures hand { IsSameHand hand.old hand.new }
{
    let _pool = pool;
    let mut intake = shared.intake.enter(rt, &mut hand.intake);
    let done = pass_next(rt, &mut intake, &mut hand.sender, number);
    shared.intake.leave(&mut hand.intake, intake);
    done
}

// The same within the turn.
fn pass_next<R: Wait>(rt: &R, intake: &mut Intake, sender: &mut SlipSender, number: u32) -> bool
    ensures sender { (sender.new.ring ≡ sender.old.ring) × (sender.new.number ≡ sender.old.number) }
    ensures plan { plan_of_intake intake.new ≡ plan_of_intake intake.old }
    ensures adds { Adds maker_of number intake.old.entries intake.new.entries }
{
    let Some(slip) = intake.next_kept() else {
        return false;
    };
    let pushed = sender.push(rt, slip).is_ok();
    if pushed {
        intake.passed(number);
    }
    pushed
}
