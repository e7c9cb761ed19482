//! What each step of a seat tells. These types are for the proofs alone.
ghost use Rattle.host_turn.specs.Views.{view_after_making, new_seat_view, note_view, told_view};
ghost use Rattle.host_turn.specs.Views.{gathered_view, spent_view};
ghost use Rattle.host_turn.specs.Steps.{DrawsTicket, TakesTurn, PassesTurn, MergesTold};

use crate::story::Story;
use crate::view::View;
use atomic_table::{Join, Play, Split};
use std::marker::PhantomData;

/// A seat draws a ticket.
pub struct DrawTicket<S> {
    state: PhantomData<S>,
}

impl<S: Story> Play<Option<S>, View<S::Entry, S::Fixed>> for DrawTicket<S> {
    ghost then = { DrawsTicket S.story S.maker S.fixed };
}

/// A seat that waits looks whether its ticket is served, and takes the slot if so.
pub struct TakeTurn<S> {
    state: PhantomData<S>,
}

impl<S: Story> Play<Option<S>, View<S::Entry, S::Fixed>> for TakeTurn<S> {
    ghost then = { TakesTurn S.story S.maker S.fixed };
}

/// A seat gives the slot back, and the next ticket is served.
pub struct PassTurn<S> {
    state: PhantomData<S>,
}

impl<S: Story> Play<Option<S>, View<S::Entry, S::Fixed>> for PassTurn<S> {
    ghost then = { PassesTurn S.story S.maker S.fixed };
}

/// A seat sees what it was told.
pub struct MergeTold<S> {
    state: PhantomData<S>,
}

impl<S: Story> Play<Option<S>, View<S::Entry, S::Fixed>> for MergeTold<S> {
    ghost then = { MergesTold S.story S.maker S.fixed };
}

/// The maker makes the next seat.
pub struct MakeSeat;

impl<E, F> Split<View<E, F>> for MakeSeat {
    ghost left = { view_after_making };

    ghost right = { new_seat_view };
}

/// A seat tells what it has seen, by a note.
pub struct TellSeen;

impl<E, F> Split<View<E, F>> for TellSeen {
    ghost left = { λ v. v };

    ghost right = { note_view };
}

impl<E, F> Join<View<E, F>> for TellSeen {
    ghost both = { told_view };

    ghost spent = { spent_view };
}

/// A seat takes in another, for good.
pub struct GatherSeat;

impl<E, F> Join<View<E, F>> for GatherSeat {
    ghost both = { gathered_view };

    ghost spent = { spent_view };
}
