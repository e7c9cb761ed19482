//! The rule that the answer ring keeps. These types are for the proofs alone.
use crate::answer_view::AnswerView;
use crate::slip::Slip;
use crossbeam_queue::RuledArrayQueue;
use crossbeam_queue::protocol::Protocol;

/// What all senders pushed is what was taken and then what the ring holds.
pub struct AnswerRule;

impl Protocol<Slip, AnswerView> for AnswerRule {
    ghost use Rattle.std.specs.Prelude.{[]};
    ghost use Rattle.host_rings.specs.AnswerRule.{InTurn};
    ghost use Rattle.host_rings.specs.AnswerViews.{reader_view};

    ghost holds = { InTurn };

    ghost first = { reader_view 0 [] [] [] };
}

/// The queue under an answer ring.
pub type AnswerQueue = RuledArrayQueue<Slip, AnswerView, AnswerRule>;
