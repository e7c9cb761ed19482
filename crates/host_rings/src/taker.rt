//! The end of a request ring that pops.
ghost use Rattle.std.specs.Prelude.{◌≡◌, ◌<◌, length, IfNone, MatchOption};
ghost use Rattle.host_block.specs.Lists.{IsPrefix};
ghost use Rattle.host_rings.specs.RequestEnds.{with_heard, with_taken, FoundEmpty};

use crate::envelope::Envelope;
use crate::note::Note;
use crate::request_rule::RequestQueue;
use crate::request_steps::{PopEnvelope, TellPushed};
use crate::request_view::RequestView;
use crossbeam_queue::Pass;
use std::alloc::Global;
use std::marker::Model;
use std::sync::{Arc, Wait};

/// The one end of a request ring that pops. Contracts see which ring it is of, what it has taken,
/// and what it was told was pushed.
#[derive(Drop)]
pub struct Taker {
    pub(crate) queue: Arc<RequestQueue, Global>,
    pub(crate) pass: Pass<Envelope, RequestView>,
}

impl Model for Taker {
    ghost use Rattle.host_rings.specs.RequestEnds.{TakerState};
    ghost use Rattle.host_rings.specs.TakerFields.{taker_state, IsTaker};

    ghost Value = { TakerState };

    ghost view = { taker_state };

    ghost invariant = { IsTaker };
}

impl Taker {
    /// Takes the envelope at the front. With `None` nothing has changed, and all that this taker
    /// was told of before the call was taken before it.
    pub fn pop<R: Wait>(&mut self, rt: &R) -> Option<Envelope>
        ensures told { IfNone result (IsPrefix self.old.heard self.old.taken) }
        ensures step { MatchOption result ((self.new ≡ self.old) × FoundEmpty self.old)
            (λ e.
            (e.index ≡ length self.old.taken) × (e.index < self.old.records)
            × (self.new ≡ with_taken self.old e)) }
    {
        self.queue.pop_as::<PopEnvelope, R>(rt, &mut self.pass)
    }

    /// The taker knows from here on that what the note tells was pushed. It takes no memory.
    pub fn hear(&mut self, note: Note)
        requires { note.ring ≡ self.old.ring }
        ensures { self.new ≡ with_heard self.old note.pushed }
    {
        let Note { pass } = note;
        self.queue.absorb::<TellPushed>(&mut self.pass, pass);
    }
}
