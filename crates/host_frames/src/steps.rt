//! What each step of a seat tells. These types are for the proofs alone.
ghost use Rattle.host_frames.specs.Views.{view_after_making, new_seat_view, packed_view};
ghost use Rattle.host_frames.specs.Views.{emptied_view, unpacked_view, gathered_view, spent_view};
ghost use Rattle.host_frames.specs.Steps.{BeginsClaim, LooksAtWord, WinsFrames, FetchesPage};
ghost use Rattle.host_frames.specs.Steps.{LeavesSlot, TakesSlot, BringsHome, GivesUp};
ghost use Rattle.host_frames.specs.Homes.{IsBlankPage};

use crate::view::View;
use atomic_table::{Join, Play, Split};

/// A claim begins. The step is an exchange that changes nothing, whose operand is the number of
/// frames.
pub struct BeginClaim;

impl Play<Option<Vec<u8>>, View> for BeginClaim {
    ghost then = { BeginsClaim IsBlankPage };
}

/// A claim looks at a word.
pub struct LookAtWord;

impl Play<Option<Vec<u8>>, View> for LookAtWord {
    ghost then = { LooksAtWord IsBlankPage };
}

/// A claim sets bits of a word, and wins the frames whose bits were clear.
pub struct WinFrames;

impl Play<Option<Vec<u8>>, View> for WinFrames {
    ghost then = { WinsFrames IsBlankPage };
}

/// The slot of a frame that was won is taken, with its page.
pub struct FetchPage;

impl Play<Option<Vec<u8>>, View> for FetchPage {
    ghost then = { FetchesPage IsBlankPage };
}

/// The slot of a frame goes home empty, since its page is out.
pub struct LeaveSlot;

impl Play<Option<Vec<u8>>, View> for LeaveSlot {
    ghost then = { LeavesSlot IsBlankPage };
}

/// The empty slot of a frame is taken, for its page to come home.
pub struct TakeSlot;

impl Play<Option<Vec<u8>>, View> for TakeSlot {
    ghost then = { TakesSlot IsBlankPage };
}

/// The bit of a frame is cleared, and its slot goes home with the page.
pub struct BringHome;

impl Play<Option<Vec<u8>>, View> for BringHome {
    ghost then = { BringsHome IsBlankPage };
}

/// The same, in a claim that is refused.
pub struct GiveUp;

impl Play<Option<Vec<u8>>, View> for GiveUp {
    ghost then = { GivesUp IsBlankPage };
}

/// The maker makes the next seat.
pub struct MakeSeat;

impl Split<View> for MakeSeat {
    ghost left = { view_after_making };

    ghost right = { new_seat_view };
}

/// The frames of a claim get a seat of their own.
pub struct PackPages;

impl Split<View> for PackPages {
    ghost left = { emptied_view };

    ghost right = { packed_view };
}

/// A seat takes in the frames of pages that come back.
pub struct UnpackPages;

impl Join<View> for UnpackPages {
    ghost both = { unpacked_view };

    ghost spent = { spent_view };
}

/// A seat takes in another, for good.
pub struct GatherSeat;

impl Join<View> for GatherSeat {
    ghost both = { gathered_view };

    ghost spent = { spent_view };
}
