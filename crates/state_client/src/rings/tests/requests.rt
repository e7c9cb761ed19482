//! One thread sends, and a desk in another takes.
ghost use Rattle.std.specs.Prelude.{◌≡◌, ◌≤◌, []};

use crate::rings::sending::wait_a_little;
use crate::rings::{Desk, send_one};
use host_block::Oom;
use host_rings::{Envelope, Sender, close_requests, request_ring};
use std::alloc::Global;
use std::sync::Wait;
use std::thread;
use std::thread::Threads;

const COUNT: u32 = 100_000;

fn envelope(index: u32) -> Envelope
    ensures { result.index ≡ index }
{
    Envelope {
        bytes: [(index % 251) as u8; 32],
        index,
        device_front: 5,
        memory_front: 7,
    }
}

fn send_all<R: Wait>(rt: &R, mut sender: Sender, count: u32) -> Sender
    requires { (sender.pushed ≡ []) × (count ≤ sender.records) }
    ensures { result.ring ≡ sender.ring }
{
    for index in 0..count {
        send_one(rt, &mut sender, envelope(index));
    }
    sender
}

// Asks until there is one.
fn take_one<R: Wait>(rt: &R, desk: &mut Desk) -> Envelope
    ensures { desk.new.ring ≡ desk.old.ring }
{
    let mut tries = 0;
    for _ in rt.forever() {
        if let Some(envelope) = desk.next(rt) {
            return envelope;
        }
        wait_a_little(&mut tries);
    }
    unreachable!()
}

// Is each of the first `count` envelopes the one that was sent at its place?
fn take_all<R: Wait>(rt: &R, mut desk: Desk, count: u32) -> (Desk, bool)
    ensures { result.0.ring ≡ desk.ring }
{
    let mut in_order = true;
    for index in 0..count {
        in_order = take_one(rt, &mut desk) == envelope(index) && in_order;
    }
    (desk, in_order)
}

fn pass_requests<R: Threads + Wait + Sync>(
    rt: &R,
    alloc: Global,
    depth: u32,
    count: u32,
) -> Result<bool, Oom>
    requires { (1 ≤ depth) × (depth ≤ 128) }
{
    let (sender, taker) = request_ring(alloc, depth, count)?;
    let desk = Desk::new(alloc, count, taker)?;
    let (mut sender, (mut desk, in_order)) = thread::join(
        rt,
        move || -> Sender
            requires { (sender.pushed ≡ []) × (count ≤ sender.records) }
            ensures { result.ring ≡ sender.ring }
        { send_all(rt, sender, count) },
        move || -> (Desk, bool)
            ensures { result.0.ring ≡ desk.ring }
        { take_all(rt, desk, count) },
    );
    let note = sender.tell();
    desk.hear(note);
    let is_last = desk.next(rt).is_none() && desk.taken() == count;
    close_requests(sender, desk.into_taker());
    Ok(in_order && is_last)
}

#[test]
fn envelopes_come_in_order(rt: HostRuntime) -> Result<(), Oom> {
    assert!(rt; pass_requests(&rt, rt.alloc(), 1, COUNT)?);
    assert!(rt; pass_requests(&rt, rt.alloc(), 3, COUNT)?);
    assert!(rt; pass_requests(&rt, rt.alloc(), 128, COUNT)?);
    Ok(())
}
