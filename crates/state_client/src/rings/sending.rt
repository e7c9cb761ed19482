//! What a thread does at the end that sends.
ghost use Rattle.std.specs.Prelude.{◌≡◌, ◌<◌, length};
ghost use Rattle.host_rings.specs.RequestEnds.{with_pushed};

use host_rings::{Envelope, Sender};
use std::sync::Wait;
use std::thread;

/// Pushes until there is room.
pub fn send_one<R: Wait>(rt: &R, sender: &mut Sender, envelope: Envelope)
    requires index { envelope.index ≡ length sender.old.pushed }
    requires room { envelope.index < sender.old.records }
    ensures { sender.new ≡ with_pushed sender.old envelope }
{
    let mut tries = 0;
    for _ in rt.forever() {
        if sender.push(rt, envelope).is_ok() {
            return;
        }
        wait_a_little(&mut tries);
    }
    unreachable!()
}

// Lets other threads run now and then.
pub(crate) fn wait_a_little(tries: &mut u32) {
    *tries = tries.wrapping_add(1);
    if *tries % 1_024 == 0 {
        thread::yield_now();
    }
}
