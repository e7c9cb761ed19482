//! A session with its client in one thread, and its hand in another.
ghost use Rattle.std.specs.Prelude.{◌≡◌, ◌≤◌, true};
ghost use Rattle.host_frames.specs.Seats.{pool_id, seat_pool};
ghost use Rattle.host_session.specs.Plan.{IsHand, IsShared};
ghost use Rattle.session_client.specs.Hands.{IsHandAt, IsSameHand};

use crate::caller::Caller;
use crate::deed::Deed;
use crate::desk::Desk;
use crate::judge::Judge;
use crate::opening::{Left, PART, Sizes, close_parts, open_desk};
use crate::plain::PlainList;
use crate::playing::play;
use crate::round::{Visit, go_round};
use host_block::Oom;
use host_frames::{Pool, PoolSeat};
use host_record::Finish;
use host_session::{SessionHand, SessionShared};
use std::alloc::Global;
use std::sync::Wait;
use std::thread;
use std::thread::Threads;

/// Plays a session: its client does these things and ends it so, while a hand serves it in a thread
/// of its own. The hand ends each record as the plain judge says.
pub fn run_pair<R: Threads + Wait + Sync>(
    rt: &R,
    alloc: Global,
    sizes: Sizes,
    deeds: &[Deed],
    how: Finish,
) -> Result<Option<Left>, Oom>
    requires frames { 1 ≤ sizes.frames }
    requires depth { (1 ≤ sizes.depth) × (sizes.depth ≤ 128) }
{
    let Ok(list) = PlainList::new(alloc, PART, sizes.records, deeds) else {
        return Err(Oom);
    };
    let Desk {
        pool,
        shared,
        caller,
        hand,
        hand_seat,
    } = open_desk(alloc, sizes)?;
    let (caller, hand) = act_both(
        rt,
        alloc,
        &shared,
        &pool,
        caller,
        hand,
        hand_seat,
        Judge::Plain(list),
        deeds,
        how,
    );
    let Caller { client, .. } = caller;
    close_parts(alloc, shared, client, hand)
}

// The client and the hand do their parts, each in a thread.
#[tactic(auto, using(crate::proofs::Hands::hand_at, crate::proofs::Hands::hand_still))]
fn act_both<R: Threads + Wait + Sync>(
    rt: &R,
    alloc: Global,
    shared: &SessionShared,
    pool: &Pool,
    caller: Caller,
    hand: SessionHand,
    seat: PoolSeat,
    judge: Judge,
    deeds: &[Deed],
    how: Finish,
) -> (Caller, SessionHand)
    requires shared { IsShared caller.client.plan shared.now }
    requires pool { caller.client.plan.pool ≡ pool_id pool.now }
    requires hand { IsHand caller.client.plan 0 hand }
    requires seat { seat_pool seat ≡ pool_id pool.now }
    ensures shared { IsShared result.0.client.plan shared.now }
    ensures plan { result.0.client.plan ≡ caller.client.plan }
    ensures hand { IsHand caller.client.plan 0 result.1 }
    ensures closed { result.0.client.closed ≡ true }
{
    let (hand, caller) = thread::join(
        rt,
        || -> SessionHand
            requires { IsHandAt shared.now (pool_id pool.now) 0 hand
                × (seat_pool seat ≡ pool_id pool.now) }
            ensures { IsSameHand hand result }
        { serve(rt, shared, pool, hand, seat, 0, judge) },
        || -> Caller
            requires { IsShared caller.client.plan shared.now
                × (caller.client.plan.pool ≡ pool_id pool.now) }
            ensures { IsShared result.client.plan shared.entry.now
                × (result.client.plan ≡ caller.client.plan) × (result.client.closed ≡ true) }
        { play(rt, alloc, shared, pool, caller, deeds, how) },
    );
    (caller, hand)
}

// The hand goes its rounds until the session is over.
#[tactic(auto, using(crate::proofs::Hands::still_at, crate::proofs::Hands::same_hand, crate::proofs::Hands::same_again))]
fn serve<R: Wait>(
    rt: &R,
    shared: &SessionShared,
    pool: &Pool,
    mut hand: SessionHand,
    mut seat: PoolSeat,
    number: u32,
    mut judge: Judge,
) -> SessionHand
    requires hand { IsHandAt shared.now (pool_id pool.now) number hand }
    requires seat { seat_pool seat ≡ pool_id pool.now }
    ensures { IsSameHand hand result }
{
    for _ in rt.forever() {
        match go_round(rt, shared, pool, &mut hand, &mut seat, number, &mut judge) {
            Visit::Over => return hand,
            Visit::Idle => thread::yield_now(),
            Visit::Did => {}
        }
    }
    unreachable!()
}
