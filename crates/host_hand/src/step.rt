// One step of the device.
ghost use Rattle.std.specs.Prelude.{◌≡◌, ◌++◌, false, length};
ghost use Rattle.std.specs.Option.{ForSome};
ghost use Rattle.host_block.specs.Changes.{is_read};
ghost use Rattle.host_device.specs.Entries.{IsOnDisk, IsPiece, step_made, entries_added};
ghost use Rattle.host_device.specs.Seen.{fixed_of, shape_of, steps_of};
ghost use Rattle.host_log.specs.History.{Adds};
ghost use Rattle.host_turn.specs.Seats.{IsSeatOutside, IsOutside, IsSameSeat, fixed_part, number};
ghost use Rattle.host_turn.specs.Seats.{seen_by};
ghost use Rattle.host_log.specs.Growth.{HasGrown};

use crate::errand::Errand;
use crate::run::Run;
use host_block::{Oom, Op};
use host_device::{Device, StepError};
use host_io::Disk;
use host_model::SharedBytes;
use host_turn::{Book, BookSeat, Story};
use std::sync::Wait;

/// Makes step `k` of a record, no read, past the device front of its envelope.
pub(crate) fn step_at<D: Disk, R: Wait>(
    rt: &R,
    book: &Book<Device<D>>,
    seat: &mut BookSeat<Device<D>>,
    errand: &Errand,
    k: u32,
    op: Op,
    block: u64,
    bytes: SharedBytes,
) -> Run
    requires seat { IsSeatOutside book.now seat.old × (number seat.old ≡ errand.now.hand) }
    requires kind { is_read op ≡ false }
    requires block { ForSome (fixed_part seat.old) (λ fixed. IsOnDisk op block fixed.blocks) }
    requires piece { ForSome (fixed_part seat.old) (λ fixed. IsPiece op (length bytes) fixed.size) }
    ensures seat { IsSameSeat seat.old seat.new × IsOutside seat.new }
    ensures step { HasGrown (λ step. step.hand) errand.now.hand errand.now.device_front result.front
        (entries_added result.answer
        (step_made errand.now.hand errand.now.session errand.now.index k op block bytes))
        (seen_by seat.old) (seen_by seat.new) }
    ensures front { result.front ≡ length (seen_by seat.new) }
{
    let mut device = book.enter_past(rt, seat, errand.device_front);
    let answer = make_step(&mut device, errand, k, op, block, bytes);
    let front = device.length();
    book.leave(seat, device);
    Run { answer, front }
}

// Makes room for a step, and makes it.
fn make_step<D: Disk>(
    device: &mut Device<D>,
    errand: &Errand,
    k: u32,
    op: Op,
    block: u64,
    bytes: SharedBytes,
) -> Result<(), StepError>
    requires kind { is_read op ≡ false }
    requires block { IsOnDisk op block (shape_of device.old).blocks }
    requires piece { IsPiece op (length bytes) (shape_of device.old).size }
    ensures entry { (steps_of device.new).items
        ≡ (steps_of device.old).items
        ++ entries_added result
        (step_made errand.now.hand errand.now.session errand.now.index k op block bytes) }
    ensures adds { Adds (λ step. step.hand) errand.now.hand (steps_of device.old).items
        (steps_of device.new).items }
    ensures fixed { fixed_of device.new ≡ fixed_of device.old }
{
    match device.make_room() {
        Ok(()) => device.step(
            errand.hand,
            errand.session,
            errand.index,
            k,
            op,
            block,
            bytes,
        ),
        Err(Oom) => Err(StepError::Oom),
    }
}
