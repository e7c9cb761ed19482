//! Eight threads answer, and another takes.
ghost use Rattle.std.specs.Prelude.{◌≡◌, ◌≤◌};
ghost use Rattle.host_rings.specs.AnswerEnds.{SlipTakerState};
ghost use Rattle.state_client.specs.Hands.{AreAllHands};

use crate::rings::sending::wait_a_little;
use crate::rings::{Hand, close_hands, hand_out};
use host_block::Oom;
use host_rings::{Slip, SlipSender, SlipTaker, answer_ring};
use std::alloc::Global;
use std::sync::Wait;
use std::thread;
use std::thread::Threads;

const EACH: u32 = 1000;

const HANDS: u32 = 8;

fn slip(index: u32, hand: u8) -> Slip {
    Slip {
        index,
        bytes: [hand; 32],
        device_front: 5,
        memory_front: 7,
    }
}

// Pushes until there is room.
fn answer_one<R: Wait>(rt: &R, sender: &mut SlipSender, slip: Slip)
    ensures { (sender.new.ring ≡ sender.old.ring) × (sender.new.number ≡ sender.old.number) }
{
    let mut tries = 0;
    for _ in rt.forever() {
        if sender.push(rt, slip).is_ok() {
            return;
        }
        wait_a_little(&mut tries);
    }
}

fn answer_each<R: Wait>(rt: &R, hand: &mut Hand, name: u8)
    ensures { (hand.new.sender.ring ≡ hand.old.sender.ring)
        × (hand.new.sender.number ≡ hand.old.sender.number) }
{
    for index in 0..EACH {
        answer_one(rt, &mut hand.sender, slip(index, name));
    }
}

// Each hand pushes in a thread of its own.
fn answer_together<R: Threads + Wait + Sync>(rt: &R, mut hands: Vec<Hand>) -> Vec<Hand>
    ensures { (t : SlipTakerState) → AreAllHands t hands.items → AreAllHands t result.items }
{
    thread::for_each_mut(
        rt,
        hands.as_mut_slice(),
        HANDS as usize,
        &|i, hand| { answer_each(rt, hand, (i % 8) as u8) },
    );
    hands
}

// Asks until there is one.
fn receive_one<R: Wait>(rt: &R, taker: &mut SlipTaker) -> Slip
    ensures { (taker.new.ring ≡ taker.old.ring) × (taker.new.senders ≡ taker.old.senders) }
{
    let mut tries = 0;
    for _ in rt.forever() {
        if let Some(slip) = taker.pop(rt) {
            return slip;
        }
        wait_a_little(&mut tries);
    }
    unreachable!()
}

// Counts the slip, if it is the next one of its hand.
fn count_in_turn(next: &mut [u32], received: Slip) {
    let hand = received.bytes[0];
    if let Some(count) = next.get_mut(hand as usize) {
        if received == slip(*count, hand) {
            *count = count.saturating_add(1);
        }
    }
}

// How many slips of each hand came in its order?
fn receive_all<R: Wait>(rt: &R, mut taker: SlipTaker, mut next: Vec<u32>) -> (SlipTaker, Vec<u32>)
    ensures { (result.0.ring ≡ taker.ring) × (result.0.senders ≡ taker.senders) }
{
    for _ in 0..HANDS * EACH {
        count_in_turn(next.as_mut_slice(), receive_one(rt, &mut taker));
    }
    (taker, next)
}

fn gather_answers<R: Threads + Wait + Sync>(
    rt: &R,
    alloc: Global,
    depth: u32,
) -> Result<Vec<u32>, Oom>
    requires { (1 ≤ depth) × (depth ≤ 128) }
{
    let (senders, taker) = answer_ring(alloc, depth, HANDS)?;
    let hands = hand_out(alloc, senders)?;
    let Ok(room) = Vec::with_capacity(alloc, HANDS as usize) else {
        return Err(Oom);
    };
    let Ok(next) = Vec::from_array(alloc, [0u32; 8]) else {
        return Err(Oom);
    };
    let (hands, (taker, next)) = thread::join(
        rt,
        move || -> Vec<Hand>
            ensures { (t : SlipTakerState) → AreAllHands t hands.items
                → AreAllHands t result.items }
        { answer_together(rt, hands) },
        move || -> (SlipTaker, Vec<u32>)
            ensures { (result.0.ring ≡ taker.ring) × (result.0.senders ≡ taker.senders) }
        { receive_all(rt, taker, next) },
    );
    close_hands(hands, taker, room);
    Ok(next)
}

#[test]
fn each_slip_comes_once(rt: HostRuntime) -> Result<(), Oom> {
    let in_order = gather_answers(&rt, rt.alloc(), 3)?;
    assert_eq!(rt; in_order.as_slice(), [EACH; 8].as_slice());
    Ok(())
}
