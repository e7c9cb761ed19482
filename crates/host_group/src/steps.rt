//! What each step of a seat tells. These types are for the proofs alone.
ghost use Rattle.host_group.specs.Views.{view_after_splitting, right_view, joined_view};
ghost use Rattle.host_group.specs.Views.{spent_cell_view};
ghost use Rattle.host_group.specs.Steps.{Looks, Places, AddsMember, PutsError, PutsDeviceFront};
ghost use Rattle.host_group.specs.Steps.{PutsMemoryFront, Settles, TakesError, TakesDeviceFront};
ghost use Rattle.host_group.specs.Steps.{TakesMemoryFront, TakesClosing, Frees};
ghost use Rattle.std.specs.Prelude.{true, false};

use crate::view::View;
use atomic_table::{Join, Play, Split};

/// The admitting seat looks whether a number has a closed instance. The step is an exchange that
/// changes nothing, whose second operand is the next member's name.
pub struct Look;

impl Play<(), View> for Look {
    ghost then = { Looks };
}

/// The closing member's name is put into the closing word.
pub struct Place;

impl Play<(), View> for Place {
    ghost then = { Places };
}

/// A member that doesn't close its group is added.
pub struct Add;

impl Play<(), View> for Add {
    ghost then = { AddsMember false };
}

/// The closing member is added.
pub struct AddLast;

impl Play<(), View> for AddLast {
    ghost then = { AddsMember true };
}

/// The least is taken into the error word.
pub struct PutError;

impl Play<(), View> for PutError {
    ghost then = { PutsError };
}

/// The greatest is taken into the device front.
pub struct PutDeviceFront;

impl Play<(), View> for PutDeviceFront {
    ghost then = { PutsDeviceFront };
}

/// The greatest is taken into the memory front.
pub struct PutMemoryFront;

impl Play<(), View> for PutMemoryFront {
    ghost then = { PutsMemoryFront };
}

/// A member is counted off.
pub struct Settle;

impl Play<(), View> for Settle {
    ghost then = { Settles };
}

/// The last member's right takes the error word out.
pub struct TakeError;

impl Play<(), View> for TakeError {
    ghost then = { TakesError };
}

/// It takes the device front out.
pub struct TakeDeviceFront;

impl Play<(), View> for TakeDeviceFront {
    ghost then = { TakesDeviceFront };
}

/// It takes the memory front out.
pub struct TakeMemoryFront;

impl Play<(), View> for TakeMemoryFront {
    ghost then = { TakesMemoryFront };
}

/// It takes the closing word out.
pub struct TakeClosing;

impl Play<(), View> for TakeClosing {
    ghost then = { TakesClosing };
}

/// It clears the word left, and the number can be used again.
pub struct Free;

impl Play<(), View> for Free {
    ghost then = { Frees };
}

/// The right to settle the member that was added gets a seat of its own.
pub struct HandOut;

impl Split<View> for HandOut {
    ghost left = { view_after_splitting };

    ghost right = { right_view };
}

/// A right comes back.
pub struct Return;

impl Join<View> for Return {
    ghost both = { joined_view };

    ghost spent = { spent_cell_view };
}
