//! The end of an answer ring that pops.
ghost use Rattle.std.specs.Prelude.{◌≡◌, ◌+◌, [], IfOk, MatchOption};
ghost use Rattle.host_rings.specs.AnswerEnds.{slip_sender_of, slip_taker_of, with_slip_taken};
ghost use Rattle.host_rings.specs.AnswerEnds.{FoundNoSlip};

use crate::answer_rule::AnswerQueue;
use crate::answer_steps::{MakeSender, PopSlip};
use crate::answer_view::AnswerView;
use crate::slip::Slip;
use crate::slip_sender::SlipSender;
use crossbeam_queue::Pass;
use host_block::Oom;
use std::alloc::Global;
use std::marker::Model;
use std::sync::{Arc, Wait};

/// The one end of an answer ring that pops. Contracts see which ring it is of, how many senders
/// that has, and what was taken.
#[derive(Drop)]
pub struct SlipTaker {
    pub(crate) queue: Arc<AnswerQueue, Global>,
    pub(crate) pass: Pass<Slip, AnswerView>,
}

impl Model for SlipTaker {
    ghost use Rattle.host_rings.specs.AnswerEnds.{SlipTakerState};
    ghost use Rattle.host_rings.specs.SlipTakerFields.{slip_taker_state, IsSlipTaker};

    ghost Value = { SlipTakerState };

    ghost view = { slip_taker_state };

    ghost invariant = { IsSlipTaker };
}

impl SlipTaker {
    /// Takes the slip at the front. With `None` nothing has changed. This taker is told of no push,
    /// so it can't tell that the ring was empty.
    pub fn pop<R: Wait>(&mut self, rt: &R) -> Option<Slip>
        ensures { MatchOption result
            ((self.new ≡ self.old) × FoundNoSlip self.old)
            (λ s. self.new ≡ with_slip_taken self.old s) }
    {
        self.queue.pop_as::<PopSlip, R>(rt, &mut self.pass)
    }

    // The next sender.
    pub(crate) fn make_sender(&mut self) -> Result<SlipSender, Oom>
        ensures { IfOk result (λ s.
            (s ≡ slip_sender_of self.old.ring self.old.depth self.old.senders [])
            × (self.new
            ≡ slip_taker_of self.old.ring self.old.depth (self.old.senders + 1) self.old.taken
            self.old.heard)) }
    {
        let Ok(queue) = Arc::try_clone(&self.queue) else {
            return Err(Oom);
        };
        let pass = self.queue.another::<MakeSender>(&mut self.pass);
        Ok(SlipSender { queue, pass })
    }
}
