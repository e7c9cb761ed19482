//! The ends of an answer ring that push.
ghost use Rattle.std.specs.Prelude.{◌≡◌, MatchResult};
ghost use Rattle.host_rings.specs.AnswerEnds.{with_slip, FoundNoRoom};

use crate::answer_rule::AnswerQueue;
use crate::answer_steps::PushSlip;
use crate::answer_view::AnswerView;
use crate::full::Full;
use crate::slip::Slip;
use crossbeam_queue::Pass;
use std::alloc::Global;
use std::marker::Model;
use std::sync::{Arc, Wait};

/// An end of an answer ring that pushes. Contracts see which ring it is of, its number, and what it
/// has pushed.
#[derive(Drop)]
pub struct SlipSender {
    pub(crate) queue: Arc<AnswerQueue, Global>,
    pub(crate) pass: Pass<Slip, AnswerView>,
}

impl Model for SlipSender {
    ghost use Rattle.host_rings.specs.AnswerEnds.{SlipSenderState};
    ghost use Rattle.host_rings.specs.SlipSenderFields.{slip_sender_state, IsSlipSender};

    ghost Value = { SlipSenderState };

    ghost view = { slip_sender_state };

    ghost invariant = { IsSlipSender };
}

impl SlipSender {
    /// Adds a slip at the back, or gives it back and changes nothing. A sender knows its own slips
    /// alone, so it can't tell that the ring was full.
    pub fn push<R: Wait>(&mut self, rt: &R, slip: Slip) -> Result<(), Full<Slip>>
        ensures { MatchResult result
            (λ _. self.new ≡ with_slip self.old slip)
            (λ full. (full.element ≡ slip) × (self.new ≡ self.old) × FoundNoRoom self.old) }
    {
        match self.queue.push_as::<PushSlip, R>(rt, &mut self.pass, slip) {
            Ok(()) => Ok(()),
            Err(element) => Err(Full { element }),
        }
    }
}
