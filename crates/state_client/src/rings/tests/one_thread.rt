//! Both rings on one thread, full and empty.
ghost use Rattle.std.specs.Prelude.{◌≡◌};

use host_block::Oom;
use host_rings::{Envelope, Slip, answer_ring, close_answers, close_requests, request_ring};

fn envelope(index: u32) -> Envelope
    ensures { result.index ≡ index }
{
    Envelope {
        bytes: [(index % 256) as u8; 32],
        index,
        device_front: 0,
        memory_front: 0,
    }
}

#[test]
fn full_and_empty(rt: HostRuntime) -> Result<(), Oom> {
    let (mut sender, mut taker) = request_ring(rt.alloc(), 2, 3)?;
    assert!(rt; taker.pop(&rt).is_none());
    assert!(rt; sender.push(&rt, envelope(0)).is_ok());
    assert!(rt; sender.push(&rt, envelope(1)).is_ok());
    assert!(rt; sender.push(&rt, envelope(2)).is_err());
    let note = sender.tell();
    taker.hear(note);
    assert_eq!(rt; taker.pop(&rt), Some(envelope(0)));
    assert!(rt; sender.push(&rt, envelope(2)).is_ok());
    assert_eq!(rt; taker.pop(&rt), Some(envelope(1)));
    assert_eq!(rt; taker.pop(&rt), Some(envelope(2)));
    assert!(rt; taker.pop(&rt).is_none());
    close_requests(sender, taker);
    Ok(())
}

fn slip(index: u32, hand: u8) -> Slip {
    Slip {
        index,
        bytes: [hand; 32],
        device_front: 0,
        memory_front: 0,
    }
}

#[test]
fn slip_comes_out(rt: HostRuntime) -> Result<(), Oom> {
    let (mut senders, mut taker) = answer_ring(rt.alloc(), 1, 1)?;
    assert!(rt; taker.pop(&rt).is_none());
    assert!(rt; senders[0].push(&rt, slip(0, 7)).is_ok());
    assert!(rt; senders[0].push(&rt, slip(1, 7)).is_err());
    assert_eq!(rt; taker.pop(&rt), Some(slip(0, 7)));
    let (senders, taker) = answer_ring(rt.alloc(), 3, 8)?;
    close_answers(senders, taker);
    Ok(())
}
