// Steps of a device beside a plain array of blocks, each block made of one byte.
ghost use Rattle.std.specs.Prelude.{◌≡◌, ◌<◌, length};
ghost use Rattle.host_device.specs.Seen.{shape_of};

use super::open::make_step;
use host_block::Op;
use host_device::Device;
use host_io::Disk;
use std::alloc::Global;

/// What one step showed.
#[derive(Clone, Copy, Debug, PartialEq, Eq)]
pub enum Seen {
    /// It did as the array does.
    Same,
    /// A read gave another byte.
    Other,
    /// It failed, and the array stays.
    Failed,
}

/// How many steps showed what.
#[derive(Clone, Copy, Debug, PartialEq, Eq)]
pub struct Tally {
    pub same: u64,
    pub other: u64,
    pub failed: u64,
}

/// The next number of a sequence without a pattern that a cache would follow.
pub fn drawn(x: u64) -> u64 {
    x.wrapping_mul(6364136223846793005)
        .wrapping_add(1442695040888963407)
}

// Reads block `b` and compares it with the array.
fn read_one<D: Disk>(alloc: Global, device: &mut Device<D>, b: u64, fills: &[u8]) -> Seen
    requires block { b < (shape_of device.old).blocks }
    requires size { (shape_of device.old).size ≡ 512 }
    requires place { b < length fills.now }
    ensures { shape_of device.new ≡ shape_of device.old }
{
    let mut into = [0u8; 512];
    match make_step(alloc, device, 0, Op::Read, b, &mut into) {
        Ok(()) if into[0] == fills[b as usize] && into[511] == into[0] => Seen::Same,
        Ok(()) => Seen::Other,
        Err(_) => Seen::Failed,
    }
}

// Writes block `b`, or trims it where the byte is 0, and the array where that succeeded.
fn write_one<D: Disk>(
    alloc: Global,
    device: &mut Device<D>,
    b: u64,
    fills: &mut [u8],
    byte: u8,
) -> Seen
    requires block { b < (shape_of device.old).blocks }
    requires size { (shape_of device.old).size ≡ 512 }
    requires place { b < length fills.old }
    ensures { shape_of device.new ≡ shape_of device.old }
{
    let mut from = [byte; 512];
    let done = if byte == 0 {
        make_step(alloc, device, 0, Op::Trim, b, &mut from)
    } else {
        make_step(alloc, device, 0, Op::Write, b, &mut from)
    };
    if done.is_err() {
        return Seen::Failed;
    }
    fills[b as usize] = byte;
    Seen::Same
}

// Flushes the device.
fn flush_one<D: Disk>(alloc: Global, device: &mut Device<D>) -> Seen
    ensures { shape_of device.new ≡ shape_of device.old }
{
    let mut none = [0u8; 0];
    match make_step(alloc, device, 0, Op::Flush, 0, &mut none) {
        Ok(()) => Seen::Same,
        Err(_) => Seen::Failed,
    }
}

// One step, told by a drawn number.
fn step<D: Disk>(alloc: Global, device: &mut Device<D>, fills: &mut [u8], x: u64) -> Seen
    requires some { 0 < (shape_of device.old).blocks }
    requires size { (shape_of device.old).size ≡ 512 }
    requires places { length fills.old ≡ (shape_of device.old).blocks }
    ensures { shape_of device.new ≡ shape_of device.old }
{
    let b = (x >> 32) % fills.len() as u64;
    match (x >> 20) % 64 {
        0 => flush_one(alloc, device),
        1..=30 => write_one(alloc, device, b, fills, ((x >> 26) % 32) as u8),
        _ => read_one(alloc, device, b, fills),
    }
}

/// Makes so many steps, drawn from a seed.
pub fn play<D: Disk>(
    alloc: Global,
    device: &mut Device<D>,
    fills: &mut [u8],
    seed: u64,
    steps: u32,
) -> Tally
    requires some { 0 < (shape_of device.old).blocks }
    requires size { (shape_of device.old).size ≡ 512 }
    requires places { length fills.old ≡ (shape_of device.old).blocks }
    ensures { shape_of device.new ≡ shape_of device.old }
{
    let mut x = seed;
    let mut tally = Tally {
        same: 0,
        other: 0,
        failed: 0,
    };
    for _ in 0..steps {
        x = drawn(x);
        match step(alloc, device, fills, x) {
            Seen::Same => tally.same = tally.same.wrapping_add(1),
            Seen::Other => tally.other = tally.other.wrapping_add(1),
            Seen::Failed => tally.failed = tally.failed.wrapping_add(1),
        }
    }
    tally
}
