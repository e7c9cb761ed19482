//! What each step on the request ring tells. These types are for the proofs alone.
use crate::envelope::Envelope;
use crate::request_view::RequestView;
use crossbeam_queue::protocol::{Join, Lesson, Outcome, Split};
use std::marker::{Brand, PhantomData};

/// For how many records a ring is made.
pub trait Limit {
    ghost use Rattle.std.specs.Prelude.{ℕ};

    ghost limit: { ℕ };
}

impl Limit for Brand {
    ghost limit = { 0 };
}

/// The first pass is cut into those of the sender and of the taker.
pub struct OpenRing<L: Limit> {
    of: PhantomData<L>,
}

impl<L: Limit> Split<RequestView> for OpenRing<L> {
    ghost use Rattle.std.specs.Prelude.{true, false, []};
    ghost use Rattle.host_rings.specs.RequestViews.{request_view};

    ghost left = { λ _. request_view true false L.limit [] [] [] };

    ghost right = { λ _. request_view false true L.limit [] [] [] };
}

/// The sender's pass takes in the taker's, for good.
pub struct JoinEnds;

impl Join<RequestView> for JoinEnds {
    ghost use Rattle.std.specs.Prelude.{true, []};
    ghost use Rattle.host_rings.specs.RequestViews.{request_view, spent_request_view};

    ghost both = { λ v w. request_view true true v.records v.pushed w.taken [] };

    ghost spent = { spent_request_view };
}

/// A note tells what was pushed, and an end takes it in.
pub struct TellPushed;

impl Split<RequestView> for TellPushed {
    ghost use Rattle.host_rings.specs.RequestViews.{note_view};

    ghost left = { λ v. v };

    ghost right = { note_view };
}

impl Join<RequestView> for TellPushed {
    ghost use Rattle.host_rings.specs.RequestViews.{hearing_view, spent_request_view};

    ghost both = { λ v w. hearing_view v w.heard };

    ghost spent = { spent_request_view };
}

/// An envelope is pushed, or the ring is found full.
pub struct PushEnvelope;

impl Outcome<Envelope, RequestView> for PushEnvelope {
    ghost use Rattle.std.specs.Prelude.{◌≡◌};
    ghost use Rattle.host_rings.specs.RequestViews.{pushing_view};

    ghost then = { λ v e w. w ≡ pushing_view v e };
}

impl Lesson<Envelope, RequestView> for PushEnvelope {
    ghost use Rattle.host_rings.specs.RequestRule.{LeftBehind};

    ghost fact = { λ v items. LeftBehind v.pushed v.heard items };
}

/// An envelope is popped, or the ring is found empty.
pub struct PopEnvelope;

impl Outcome<Envelope, RequestView> for PopEnvelope {
    ghost use Rattle.std.specs.Prelude.{◌≡◌, ◌<◌, length};
    ghost use Rattle.host_rings.specs.RequestViews.{popping_view};

    ghost then = { λ v e w.
        (e.index ≡ length v.taken) × (length v.taken < v.records) × (w ≡ popping_view v e) };
}

impl Lesson<Envelope, RequestView> for PopEnvelope {
    ghost use Rattle.host_rings.specs.RequestRule.{StillAhead};

    ghost fact = { λ v items. StillAhead v.taken v.heard items };
}

/// What is in the ring at the end is what was pushed and not taken.
pub struct CompareEnds;

impl Lesson<Envelope, RequestView> for CompareEnds {
    ghost use Rattle.std.specs.Prelude.{◌≡◌, ◌++◌};

    ghost fact = { λ v items. v.taken ++ items ≡ v.pushed };
}
