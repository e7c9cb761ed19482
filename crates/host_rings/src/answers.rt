//! The answer ring: how it is made with its ends, and closed with all of them.
ghost use Rattle.std.specs.Prelude.{◌≡◌, Bool, ◌≤◌, [], true, length, map, IfOk};
ghost use Rattle.std.specs.List.{sum_by, count_by};
ghost use Rattle.crossbeam_queue.specs.Passes.{view, IsPassOf};
ghost use Rattle.host_rings.specs.Slips.{ComeFrom};
ghost use Rattle.host_rings.specs.AnswerViews.{closing_view};
ghost use Rattle.host_rings.specs.AnswerEnds.{slip_taker_of, AreFresh, AreAllOf};

use crate::answer_rule::AnswerQueue;
use crate::answer_steps::{CompareAll, GatherSender};
use crate::answer_view::AnswerView;
use crate::slip::Slip;
use crate::slip_sender::SlipSender;
use crate::slip_taker::SlipTaker;
use crossbeam_queue::Pass;
use host_block::Oom;
use std::alloc::Global;
use std::sync::Arc;

/// An empty ring with room for `depth` slips at once, and its senders by their numbers, one for
/// each hand. It has `Oom` for an answer only for want of memory.
pub fn answer_ring(
    alloc: Global,
    depth: u32,
    hands: u32,
) -> Result<(Vec<SlipSender>, SlipTaker), Oom>
    requires depth { (1 ≤ depth) × (depth ≤ 128) }
    requires hands { 1 ≤ hands }
    ensures count { IfOk result (λ ends. length ends.0.items ≡ hands) }
    ensures senders { IfOk result (λ ends. AreFresh ends.1.ring depth ends.0.items) }
    ensures taker { IfOk result (λ ends. ends.1 ≡ slip_taker_of ends.1.ring depth hands [] []) }
{
    let Ok((queue, reader)) = AnswerQueue::ruled(alloc, depth as usize) else {
        return Err(Oom);
    };
    let Ok(queue) = Arc::new(alloc, queue) else {
        return Err(Oom);
    };
    let mut taker = SlipTaker {
        queue,
        pass: reader,
    };
    let Ok(mut senders) = Vec::with_capacity(alloc, hands as usize) else {
        return Err(Oom);
    };
    for _ in 0..hands {
        let sender = taker.make_sender()?;
        senders.push_reserved(sender);
    }
    Ok((senders, taker))
}

/// Ends a ring, and tells where what was taken came from.
///
/// The slips of each sender were taken in the order in which it pushed them, and none more often
/// than the senders together pushed it.
pub fn close_answers(senders: Vec<SlipSender>, taker: SlipTaker)
    requires { AreAllOf taker senders.items }
    ensures order { ComeFrom (map (λ s. s.pushed) senders.items) taker.taken }
    ensures count { (test : Slip → Bool)
        → count_by test taker.taken ≤ sum_by (λ s. count_by test s.pushed) senders.items }
{
    let SlipTaker {
        queue,
        pass: mut reader,
    } = taker;
    for sender in senders {
        close_sender(&queue, &mut reader, sender);
    }
    queue.learn_as::<CompareAll>(&mut reader);
}

// Takes in what a sender pushed.
fn close_sender(queue: &AnswerQueue, reader: &mut Pass<Slip, AnswerView>, sender: SlipSender)
    requires queue { IsPassOf queue.now reader.old × (sender.ring ≡ reader.old.table_id) }
    requires place { ((view reader.old).pops ≡ true)
        × (sender.number ≡ length (view reader.old).closed) }
    ensures queue { IsPassOf queue.now reader.new × (reader.new.table_id ≡ reader.old.table_id) }
    ensures closed { view reader.new ≡ closing_view (view reader.old) sender.pushed }
{
    let SlipSender {
        queue: _theirs,
        pass,
    } = sender;
    queue.absorb::<GatherSender>(reader, pass);
}
