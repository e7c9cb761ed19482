//! What a thread holds, with the end of a ring among it.
ghost use Rattle.std.specs.Prelude.{◌≡◌, map, IfOk};

use host_block::Oom;
use host_rings::SlipSender;
use std::alloc::Global;

/// What one thread holds of a session.
#[derive(Drop)]
pub struct Hand {
    pub sender: SlipSender,
    /// How many steps it has made.
    pub steps: u32,
}

/// A hand for each sender, in the same order.
pub fn hand_out(alloc: Global, senders: Vec<SlipSender>) -> Result<Vec<Hand>, Oom>
    ensures { IfOk result (λ hands. map (λ h. h.sender) hands.items ≡ senders.items) }
{
    let Ok(mut hands) = Vec::with_capacity(alloc, senders.len()) else {
        return Err(Oom);
    };
    for sender in senders {
        hands.push_reserved(Hand { sender, steps: 0 });
    }
    Ok(hands)
}
