//! The device of a run, over its disk.
ghost use Rattle.std.specs.Prelude.{◌≡◌, [], None, true, IfOk, IfErr, IsTrue};
ghost use Rattle.host_cache.specs.Seen.{disk_of as disk_under, held_of};
ghost use Rattle.host_device.specs.Seen.{disk_of, opening_of, steps_of};

use crate::played::NoPlay;
use host_block::BlockSize;
use host_cache::{Cache, NoCache};
use host_device::{Device, NoDevice};
use host_io::Disk;
use std::alloc::Global;

/// A device over a disk that is attached, with nothing pending. Its history is kept for the report,
/// and has room for so many steps.
pub fn open_device<D: Disk>(
    alloc: Global,
    disk: D,
    blocks: u64,
    size: BlockSize,
    room: u64,
) -> Result<Device<D>, NoPlay<D>>
    requires attached { IsTrue (D.shape disk).attached }
    requires blocks { blocks ≡ (D.shape disk).blocks }
    requires size { size ≡ (D.shape disk).size }
    requires settled { IsTrue (D.shape disk).tells → (D.state disk).pending ≡ [] }
    ensures opening { IfOk result (λ device. opening_of device ≡ disk) }
    ensures disk { IfOk result (λ device. disk_of device ≡ disk) }
    ensures steps { IfOk result (λ device.
        ((steps_of device).items ≡ []) × ((steps_of device).kept ≡ true)
        × ((steps_of device).room ≡ room)) }
    ensures refused { IfErr result (λ no. no.disk ≡ disk) }
{
    match Cache::new(alloc, disk, blocks, size) {
        Ok(cache) => open_over(alloc, cache, room),
        Err(NoCache { disk }) => Err(NoPlay { disk }),
    }
}

// A device over an empty cache.
fn open_over<D: Disk>(alloc: Global, cache: Cache<D>, room: u64) -> Result<Device<D>, NoPlay<D>>
    requires empty { held_of cache ≡ record { lines = []; victim = None } }
    requires settled { IsTrue (D.shape (disk_under cache)).tells
        → (D.state (disk_under cache)).pending ≡ [] }
    ensures opening { IfOk result (λ device. opening_of device ≡ disk_under cache) }
    ensures disk { IfOk result (λ device. disk_of device ≡ disk_under cache) }
    ensures steps { IfOk result (λ device.
        ((steps_of device).items ≡ []) × ((steps_of device).kept ≡ true)
        × ((steps_of device).room ≡ room)) }
    ensures refused { IfErr result (λ no. no.disk ≡ disk_under cache) }
{
    match Device::new(alloc, cache, room, true) {
        Ok(device) => Ok(device),
        Err(NoDevice { cache }) => Err(NoPlay {
            disk: cache.into_disk(),
        }),
    }
}

/// The disk under a device, which is let go.
pub fn into_disk<D: Disk>(device: Device<D>) -> D
    ensures { result ≡ disk_of device }
{
    let (_steps, cache) = device.into_parts();
    cache.into_disk()
}
