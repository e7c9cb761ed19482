//! The rule that the request ring keeps. These types are for the proofs alone.
use crate::envelope::Envelope;
use crate::request_view::RequestView;
use crossbeam_queue::RuledArrayQueue;
use crossbeam_queue::protocol::Protocol;

/// What was pushed is what was taken and then what the ring holds.
pub struct RequestRule;

impl Protocol<Envelope, RequestView> for RequestRule {
    ghost use Rattle.std.specs.Prelude.{true, []};
    ghost use Rattle.host_rings.specs.RequestRule.{InOrder};
    ghost use Rattle.host_rings.specs.RequestViews.{request_view};

    ghost holds = { InOrder };

    ghost first = { request_view true true 0 [] [] [] };
}

/// The queue under a request ring.
pub type RequestQueue = RuledArrayQueue<Envelope, RequestView, RequestRule>;
