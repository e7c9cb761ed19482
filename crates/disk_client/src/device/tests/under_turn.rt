//! A step under the turn of a book.
ghost use Rattle.std.specs.Prelude.{◌≡◌, ◌++◌, length};
ghost use Rattle.std.specs.Option.{ForSome};
ghost use Rattle.host_device.specs.Entries.{IsOnDisk, IsPiece, step_made, entries_added};
ghost use Rattle.host_turn.specs.Seats.{IsSeatOutside, IsOutside, IsSameSeat, number, fixed_part};
ghost use Rattle.host_turn.specs.Seats.{own_entries};

use super::open::make_step;
use host_block::Op;
use host_device::{Device, StepError};
use host_io::Disk;
use host_turn::{Book, BookSeat};
use std::alloc::Global;
use std::sync::Wait;

/// Enters the device, makes a step, and leaves. The step's entry becomes the last of the hand's
/// own.
pub fn step_at<D: Disk, R: Wait>(
    rt: &R,
    alloc: Global,
    book: &Book<Device<D>>,
    seat: &mut BookSeat<Device<D>>,
    hand: u32,
    op: Op,
    b: u64,
    bytes: &mut [u8],
) -> Result<(), StepError>
    requires seat { IsSeatOutside book.now seat.old × (number seat.old ≡ hand) }
    requires block { ForSome (fixed_part seat.old) (λ fixed. IsOnDisk op b fixed.blocks) }
    requires piece { ForSome (fixed_part seat.old)
        (λ fixed. IsPiece op (length bytes.old) fixed.size) }
    ensures seat { IsSameSeat seat.old seat.new × IsOutside seat.new }
    ensures own { own_entries (λ step. step.hand) seat.new
        ≡ own_entries (λ step. step.hand) seat.old
        ++ entries_added result (step_made hand 1 0 0 op b bytes.new) }
{
    let mut device = book.enter(rt, seat);
    let done = make_step(alloc, &mut device, hand, op, b, bytes);
    book.leave(seat, device);
    done
}
