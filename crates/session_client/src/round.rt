//! One round of a hand at a session.
ghost use Rattle.std.specs.Prelude.{◌≡◌};
ghost use Rattle.host_frames.specs.Seats.{pool_id, seat_pool};
ghost use Rattle.session_client.specs.Hands.{IsHandAt, IsSameHand};

use crate::handing::hand_on;
use crate::judge::Judge;
use crate::landing::land;
use crate::taking::take;
use crate::task::Taken;
use host_frames::{Pool, PoolSeat};
use host_session::{SessionHand, SessionShared};
use std::sync::Wait;

/// What a round did.
#[derive(Clone, Copy, Debug, PartialEq, Eq)]
pub enum Visit {
    Did,
    Idle,
    Over,
}

/// Hands on a kept answer, or else takes the next record and ends it at once, as the judge says.
#[tactic(auto, using(crate::proofs::Tasks::ended_to_do))]
pub fn go_round<R: Wait>(
    rt: &R,
    shared: &SessionShared,
    pool: &Pool,
    hand: &mut SessionHand,
    seat: &mut PoolSeat,
    number: u32,
    judge: &mut Judge,
) -> Visit
    requires hand { IsHandAt shared.now (pool_id pool.now) number hand.old }
    requires seat { seat_pool seat.old ≡ pool_id pool.now }
    ensures hand { IsSameHand hand.old hand.new }
    ensures seat { seat_pool seat.new ≡ seat_pool seat.old }
{
    if hand_on(rt, shared, pool, hand, number) {
        return Visit::Did;
    }
    match take(rt, shared, pool, hand, seat, number) {
        Taken::ToDo(task) => {
            let task = judge.ended(task);
            land(rt, shared, pool, hand, number, task);
            Visit::Did
        }
        Taken::Waits => Visit::Did,
        Taken::Stalled | Taken::Nothing | Taken::Full => Visit::Idle,
        Taken::Over => Visit::Over,
    }
}
