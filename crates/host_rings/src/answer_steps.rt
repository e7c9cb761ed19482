//! What each step on the answer ring tells. These types are for the proofs alone.
use crate::answer_view::AnswerView;
use crate::slip::Slip;
use crossbeam_queue::protocol::{Join, Lesson, Outcome, Split};

/// The taker makes the next sender.
pub struct MakeSender;

impl Split<AnswerView> for MakeSender {
    ghost use Rattle.std.specs.Prelude.{[]};
    ghost use Rattle.host_rings.specs.AnswerViews.{making_view, hand_view};

    ghost left = { making_view };

    ghost right = { λ v. hand_view v.senders [] };
}

/// The taker takes in a sender, for good.
pub struct GatherSender;

impl Join<AnswerView> for GatherSender {
    ghost use Rattle.host_rings.specs.AnswerViews.{closing_view, spent_answer_view};

    ghost both = { λ v w. closing_view v w.pushed };

    ghost spent = { spent_answer_view };
}

/// A slip is pushed, or the ring is found full.
pub struct PushSlip;

impl Outcome<Slip, AnswerView> for PushSlip {
    ghost use Rattle.std.specs.Prelude.{◌≡◌, ◌∷◌, ◌++◌, []};
    ghost use Rattle.host_rings.specs.AnswerViews.{hand_view};

    ghost then = { λ v s w. w ≡ hand_view v.number (v.pushed ++ s ∷ []) };
}

impl Lesson<Slip, AnswerView> for PushSlip {
    ghost use Rattle.host_rings.specs.AnswerRule.{HoldsAfter};

    ghost fact = { λ v items. HoldsAfter v.number v.pushed items };
}

/// A slip is popped, or the ring is found empty.
pub struct PopSlip;

impl Outcome<Slip, AnswerView> for PopSlip {
    ghost use Rattle.std.specs.Prelude.{◌≡◌, ◌∷◌, ◌++◌, []};
    ghost use Rattle.host_rings.specs.AnswerViews.{reader_view};

    ghost then = { λ v s w. w ≡ reader_view v.senders v.closed (v.taken ++ s ∷ []) v.heard };
}

impl Lesson<Slip, AnswerView> for PopSlip {
    ghost use Rattle.host_rings.specs.AnswerRule.{AllThere};

    ghost fact = { λ v items. AllThere v.taken v.heard items };
}

/// What was taken came from the senders.
pub struct CompareAll;

impl Lesson<Slip, AnswerView> for CompareAll {
    ghost use Rattle.host_rings.specs.Slips.{ComeFrom};

    ghost fact = { λ v items. ComeFrom v.closed v.taken };
}
