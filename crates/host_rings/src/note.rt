//! What one end tells the other.
use crate::envelope::Envelope;
use crate::request_view::RequestView;
use crossbeam_queue::Pass;
use std::marker::Model;

/// What a sender had pushed when it wrote the note. It has no bytes.
#[derive(Drop)]
pub struct Note {
    pub(crate) pass: Pass<Envelope, RequestView>,
}

impl Model for Note {
    ghost use Rattle.host_rings.specs.RequestEnds.{NoteState};
    ghost use Rattle.host_rings.specs.NoteFields.{note_state, IsNote};

    ghost Value = { NoteState };

    ghost view = { note_state };

    ghost invariant = { IsNote };
}
