//! A client is served on a disk in memory.
ghost use Rattle.std.specs.Prelude.{◌≡◌, [], IfSome};
ghost use Rattle.host_device.specs.Seen.{shape_of, steps_of};

use crate::load::Load;
use crate::outcome::Outcome;
use crate::serving::serve;
use host_block::{BlockSize, Range};
use host_cache::Cache;
use host_device::Device;
use host_io::{Disk, MemDisk, OpenGate};
use std::alloc::Global;
use std::sync::Wait;

/// Serves so many records over 64 blocks in memory, whose device keeps its history or not. `None`
/// for want of memory.
pub fn serve_in_memory<R: Wait>(
    rt: &R,
    alloc: Global,
    records: u32,
    keeps: bool,
) -> Option<Outcome<MemDisk>> {
    let size = BlockSize::new(512)?;
    let device = open_device(alloc, size, records as u64, keeps)?;
    let load = Load {
        range: Range {
            first: 34,
            count: 30,
        },
        blocks: 64,
        size,
        records,
    };
    serve(rt, alloc, device, &load, &OpenGate).ok()
}

// A device over 64 blocks in memory, with room for so many steps. `None` for want of memory.
fn open_device(alloc: Global, size: BlockSize, room: u64, keeps: bool) -> Option<Device<MemDisk>>
    ensures steps { IfSome result (λ device. (steps_of device).items ≡ []) }
    ensures size { IfSome result (λ device. (shape_of device).size ≡ size) }
    ensures blocks { IfSome result (λ device. (shape_of device).blocks ≡ 64) }
{
    let mut disk = MemDisk::new(alloc, vec![in alloc; 7u8; 32768].ok()?, Vec::new(alloc));
    let blocks = disk.attach_image("any", size, true).ok()?;
    if blocks != 64 {
        return None;
    }
    let cache = Cache::new(alloc, disk, blocks, size).ok()?;
    Device::new(alloc, cache, room, keeps).ok()
}
