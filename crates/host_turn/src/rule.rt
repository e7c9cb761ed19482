//! The rule that the book's table keeps. These types are for the proofs alone.
use crate::story::Story;
use crate::view::View;
use atomic_table::TableRule;
use std::marker::PhantomData;
use std::snapshot::Snapshot;

/// What a book is made with.
#[derive(Drop)]
pub struct Opening<S> {
    pub state: Snapshot<S>,
    pub seats: u32,
}

/// One history.
pub struct TurnRule<S> {
    state: PhantomData<S>,
}

impl<S: Story> TableRule<Option<S>, View<S::Entry, S::Fixed>, Opening<S>> for TurnRule<S> {
    ghost use Rattle.host_turn.specs.Rule.{OneHistory, first_view};

    ghost holds = { λ k. OneHistory S.story S.maker S.fixed k };

    ghost first = { λ k. first_view S.story S.maker S.fixed k };
}
