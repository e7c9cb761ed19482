//! The end of a request ring that pushes.
ghost use Rattle.std.specs.Prelude.{◌≡◌, ◌<◌, length, MatchResult};
ghost use Rattle.host_rings.specs.RequestEnds.{with_pushed, FoundFull};

use crate::envelope::Envelope;
use crate::full::Full;
use crate::note::Note;
use crate::request_rule::RequestQueue;
use crate::request_steps::{PushEnvelope, TellPushed};
use crate::request_view::RequestView;
use crossbeam_queue::Pass;
use std::alloc::Global;
use std::marker::Model;
use std::sync::{Arc, Wait};

/// The one end of a request ring that pushes. Contracts see which ring it is of, and what it has
/// pushed.
#[derive(Drop)]
pub struct Sender {
    pub(crate) queue: Arc<RequestQueue, Global>,
    pub(crate) pass: Pass<Envelope, RequestView>,
}

impl Model for Sender {
    ghost use Rattle.host_rings.specs.RequestEnds.{SenderState};
    ghost use Rattle.host_rings.specs.SenderFields.{sender_state, IsSender};

    ghost Value = { SenderState };

    ghost view = { sender_state };

    ghost invariant = { IsSender };
}

impl Sender {
    /// Adds an envelope at the back, or gives it back and changes nothing; then at least as many as
    /// the ring is deep were pushed.
    pub fn push<R: Wait>(&mut self, rt: &R, envelope: Envelope) -> Result<(), Full<Envelope>>
        requires index { envelope.index ≡ length self.old.pushed }
        requires room { envelope.index < self.old.records }
        ensures { MatchResult result
            (λ _. self.new ≡ with_pushed self.old envelope)
            (λ full. (full.element ≡ envelope) × (self.new ≡ self.old) × FoundFull self.old) }
    {
        match self
            .queue
            .push_as::<PushEnvelope, R>(rt, &mut self.pass, envelope)
        {
            Ok(()) => Ok(()),
            Err(element) => Err(Full { element }),
        }
    }

    /// A note of what this sender has pushed so far, for the taker. It takes no memory.
    pub fn tell(&mut self) -> Note
        ensures same { self.new ≡ self.old }
        ensures note { (result.ring ≡ self.old.ring) × (result.pushed ≡ self.old.pushed) }
    {
        Note {
            pass: self.queue.another::<TellPushed>(&mut self.pass),
        }
    }
}
