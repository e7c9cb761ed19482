// One read of the device.
ghost use Rattle.std.specs.Prelude.{◌≡◌, ◌<◌, ◌++◌, length, IfOk};
ghost use Rattle.std.specs.Option.{ForSome};
ghost use Rattle.host_block.specs.declared.op.Op.TheVariants.{Read};
ghost use Rattle.host_device.specs.Entries.{answer_alone, step_made, entries_added};
ghost use Rattle.host_device.specs.Seen.{fixed_of, shape_of, steps_of};
ghost use Rattle.host_log.specs.History.{Adds};
ghost use Rattle.host_turn.specs.Seats.{IsSeatOutside, IsOutside, IsSameSeat, fixed_part, number};
ghost use Rattle.host_turn.specs.Seats.{seen_by};
ghost use Rattle.host_log.specs.Growth.{HasGrown};

use crate::errand::Errand;
use host_block::Oom;
use host_device::{Device, StepError};
use host_io::Disk;
use host_model::SharedBytes;
use host_turn::{Book, BookSeat, Story};
use std::sync::Wait;

/// How a read came out, and how long the device's history was after it.
#[derive(Drop)]
pub(crate) struct ReadRun {
    pub(crate) answer: Result<SharedBytes, StepError>,
    pub(crate) front: u64,
}

/// Reads a block into `into` for step `k` of a record, past the device front of its envelope.
pub(crate) fn read_at<D: Disk, R: Wait>(
    rt: &R,
    book: &Book<Device<D>>,
    seat: &mut BookSeat<Device<D>>,
    errand: &Errand,
    k: u32,
    block: u64,
    into: &mut [u8],
) -> ReadRun
    requires seat { IsSeatOutside book.now seat.old × (number seat.old ≡ errand.now.hand) }
    requires block { ForSome (fixed_part seat.old) (λ fixed. block < fixed.blocks) }
    requires piece { ForSome (fixed_part seat.old) (λ fixed. length into.old ≡ fixed.size) }
    ensures seat { IsSameSeat seat.old seat.new × IsOutside seat.new }
    ensures bytes { IfOk result.answer (λ bytes. bytes ≡ into.new) }
    ensures step { HasGrown (λ step. step.hand) errand.now.hand errand.now.device_front result.front
        (entries_added (answer_alone result.answer)
        (step_made errand.now.hand errand.now.session errand.now.index k Read block into.new))
        (seen_by seat.old) (seen_by seat.new) }
    ensures front { result.front ≡ length (seen_by seat.new) }
{
    let mut device = book.enter_past(rt, seat, errand.device_front);
    let answer = make_read(&mut device, errand, k, block, into);
    let front = device.length();
    book.leave(seat, device);
    ReadRun { answer, front }
}

// Makes room for a step, and reads.
fn make_read<D: Disk>(
    device: &mut Device<D>,
    errand: &Errand,
    k: u32,
    block: u64,
    into: &mut [u8],
) -> Result<SharedBytes, StepError>
    requires block { block < (shape_of device.old).blocks }
    requires piece { length into.old ≡ (shape_of device.old).size }
    ensures bytes { IfOk result (λ bytes. bytes ≡ into.new) }
    ensures entry { (steps_of device.new).items
        ≡ (steps_of device.old).items
        ++ entries_added (answer_alone result) (step_made errand.now.hand errand.now.session
        errand.now.index k Read block into.new) }
    ensures adds { Adds (λ step. step.hand) errand.now.hand (steps_of device.old).items
        (steps_of device.new).items }
    ensures fixed { fixed_of device.new ≡ fixed_of device.old }
{
    match device.make_room() {
        Ok(()) => device.read(errand.hand, errand.session, errand.index, k, block, into),
        Err(Oom) => Err(StepError::Oom),
    }
}
