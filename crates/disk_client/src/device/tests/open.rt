// A device over a disk, and steps that make their own room.
ghost use Rattle.std.specs.Prelude.{◌≡◌, ◌++◌, [], length, IfSome};
ghost use Rattle.host_device.specs.Entries.{IsOnDisk, IsPiece, answer_alone, step_made};
ghost use Rattle.host_device.specs.Entries.{entries_added};
ghost use Rattle.host_device.specs.Seen.{fixed_of, shape_of, steps_of};
ghost use Rattle.host_log.specs.History.{Adds};

use host_block::{BlockSize, Oom, Op};
use host_cache::Cache;
use host_device::{Device, StepError};
use host_io::Disk;
use host_model::SharedBytes;
use std::alloc::Global;

/// Attaches a disk and makes a device over it. `None` where that fails.
pub fn open_device<D: Disk + Drop>(
    alloc: Global,
    mut disk: D,
    size: BlockSize,
    room: u64,
) -> Option<(Device<D>, u64)>
    ensures blocks { IfSome result (λ r. (shape_of r.0).blocks ≡ r.1) }
    ensures size { IfSome result (λ r. (shape_of r.0).size ≡ size) }
    ensures steps { IfSome result (λ r. (steps_of r.0).items ≡ []) }
{
    let Ok(blocks) = disk.attach_image("any", size, true) else {
        return None;
    };
    let Ok(cache) = Cache::new(alloc, disk, blocks, size) else {
        return None;
    };
    match Device::new(alloc, cache, room, true) {
        Ok(device) => Some((device, blocks)),
        Err(_) => None,
    }
}

// The answer of a read, without the entry's bytes.
fn without_bytes(read: Result<SharedBytes, StepError>) -> Result<(), StepError>
    ensures { result ≡ answer_alone read }
{
    match read {
        Ok(_) => Ok(()),
        Err(error) => Err(error),
    }
}

/// Makes room for a step, and makes it.
pub fn make_step<D: Disk>(
    alloc: Global,
    device: &mut Device<D>,
    hand: u32,
    op: Op,
    b: u64,
    bytes: &mut [u8],
) -> Result<(), StepError>
    requires block { IsOnDisk op b (shape_of device.old).blocks }
    requires piece { IsPiece op (length bytes.old) (shape_of device.old).size }
    ensures entry { (steps_of device.new).items
        ≡ (steps_of device.old).items
        ++ entries_added result (step_made hand 1 0 0 op b bytes.new) }
    ensures adds { Adds (λ step. step.hand) hand (steps_of device.old).items
        (steps_of device.new).items }
    ensures shape { shape_of device.new ≡ shape_of device.old }
    ensures fixed { fixed_of device.new ≡ fixed_of device.old }
{
    if device.make_room().is_err() {
        return Err(StepError::Oom);
    }
    match op {
        Op::Read => without_bytes(device.read(hand, 1, 0, 0, b, bytes)),
        Op::Write => match SharedBytes::copied(alloc, bytes) {
            Ok(bytes) => device.step(hand, 1, 0, 0, Op::Write, b, bytes),
            Err(Oom) => Err(StepError::Oom),
        },
        Op::Trim => device.step(hand, 1, 0, 0, Op::Trim, b, SharedBytes::empty()),
        Op::Flush => device.step(hand, 1, 0, 0, Op::Flush, b, SharedBytes::empty()),
    }
}
