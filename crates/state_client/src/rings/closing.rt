//! The closing of an answer ring whose senders rest in hands.
ghost use Rattle.std.specs.List.{count_by, sum_by};
ghost use Rattle.std.specs.Prelude.{◌≡◌, Bool, ◌≤◌, [], length, map, vec_len, vec_capacity};
ghost use Rattle.host_rings.specs.Slips.{ComeFrom};
ghost use Rattle.state_client.specs.Hands.{AreAllHands};

use crate::rings::hand::Hand;
use host_rings::{Slip, SlipSender, SlipTaker, close_answers};

/// Tells where what was taken came from. Where as many slips were taken as the hands pushed, each
/// was taken as often as they pushed it. `senders` is an empty vector with room for all of them.
pub fn close_hands(hands: Vec<Hand>, taker: SlipTaker, mut senders: Vec<SlipSender>)
    requires hands { AreAllHands taker hands.items }
    requires room { (senders.items ≡ []) × (vec_len hands ≤ vec_capacity senders) }
    ensures order { ComeFrom (map (λ h. h.sender.pushed) hands.items) taker.taken }
    ensures all { length taker.taken ≡ sum_by (λ h. length h.sender.pushed) hands.items
        → (test : Slip → Bool)
        → count_by test taker.taken ≡ sum_by (λ h. count_by test h.sender.pushed) hands.items }
{
    for hand in hands {
        let Hand {
            sender,
            steps: _steps,
        } = hand;
        senders.push_reserved(sender);
    }
    close_answers(senders, taker);
}
