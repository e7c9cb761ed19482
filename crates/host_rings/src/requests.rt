//! The request ring: how it is made with its two ends, and closed with them.
ghost use Rattle.std.specs.Prelude.{◌≡◌, ◌≤◌, [], true, false, IfOk};
ghost use Rattle.crossbeam_queue.specs.Passes.{view, IsPassOf};
ghost use Rattle.host_block.specs.Lists.{IsPrefix};
ghost use Rattle.host_rings.specs.RequestViews.{request_view};
ghost use Rattle.host_rings.specs.RequestEnds.{sender_of, taker_of};

use crate::envelope::Envelope;
use crate::request_rule::RequestQueue;
use crate::request_steps::{CompareEnds, JoinEnds, Limit, OpenRing};
use crate::request_view::RequestView;
use crate::sender::Sender;
use crate::taker::Taker;
use crossbeam_queue::Pass;
use host_block::Oom;
use std::alloc::Global;
use std::marker::Brand;
use std::sync::Arc;

/// An empty ring with room for `depth` envelopes at once, for at most `records` of them in all. It
/// has `Oom` for an answer only for want of memory.
pub fn request_ring(alloc: Global, depth: u32, records: u32) -> Result<(Sender, Taker), Oom>
    requires depth { (1 ≤ depth) × (depth ≤ 128) }
    ensures ring { IfOk result (λ ends. ends.0.ring ≡ ends.1.ring) }
    ensures sender { IfOk result (λ ends. ends.0 ≡ sender_of ends.0.ring depth records [] []) }
    ensures taker { IfOk result (λ ends. ends.1 ≡ taker_of ends.1.ring depth records [] []) }
{
    let Ok((queue, mut writer)) = RequestQueue::ruled(alloc, depth as usize) else {
        return Err(Oom);
    };
    let reader = open::<Brand>(&queue, &mut writer, records);
    let Ok(queue) = Arc::new(alloc, queue) else {
        return Err(Oom);
    };
    let Ok(theirs) = Arc::try_clone(&queue) else {
        return Err(Oom);
    };
    let sender = Sender {
        queue,
        pass: writer,
    };
    let taker = Taker {
        queue: theirs,
        pass: reader,
    };
    Ok((sender, taker))
}

// Cuts the first pass of a ring in two, and fixes the number of records.
fn open<L: Limit>(
    queue: &RequestQueue,
    writer: &mut Pass<Envelope, RequestView>,
    records: u32,
) -> Pass<Envelope, RequestView>
    requires limit { L.limit ≡ records }
    requires queue { IsPassOf queue.now writer.old }
    requires fresh { view writer.old ≡ request_view true true 0 [] [] [] }
    ensures queue { IsPassOf queue.now writer.new × IsPassOf queue.now result }
    ensures writer { view writer.new ≡ request_view true false records [] [] [] }
    ensures reader { view result ≡ request_view false true records [] [] [] }
{
    let _records = records;
    queue.another::<OpenRing<L>>(writer)
}

/// Ends a ring, and tells that what was pushed begins with what was taken.
pub fn close_requests(sender: Sender, taker: Taker)
    requires { sender.ring ≡ taker.ring }
    ensures { IsPrefix taker.taken sender.pushed }
{
    let Sender {
        queue,
        pass: mut writer,
    } = sender;
    let Taker {
        queue: _theirs,
        pass: reader,
    } = taker;
    queue.absorb::<JoinEnds>(&mut writer, reader);
    queue.learn_as::<CompareEnds>(&mut writer);
}
