// Calls of a cache beside a plain array of blocks, each block made of one byte.
ghost use Rattle.std.specs.Prelude.{◌≡◌, ◌<◌, length};
ghost use Rattle.host_cache.specs.Seen.{shape_of};

use host_cache::Cache;
use host_io::Disk;

/// What one call showed.
#[derive(Clone, Copy, Debug, PartialEq, Eq)]
pub enum Seen {
    /// It did as the array does.
    Same,
    /// A read gave another byte.
    Other,
    /// It failed, and the array stays.
    Failed,
}

/// How many calls showed what.
#[derive(Clone, Copy, Debug, PartialEq, Eq)]
pub struct Tally {
    pub same: u64,
    pub other: u64,
    pub failed: u64,
}

// The next number of a sequence without a pattern that a cache would follow.
fn drawn(x: u64) -> u64 {
    x.wrapping_mul(6364136223846793005)
        .wrapping_add(1442695040888963407)
}

// Reads block `b` and compares it with the array.
fn read_one<D: Disk>(cache: &mut Cache<D>, b: u64, fills: &[u8]) -> Seen
    requires block { b < (shape_of cache.old).blocks }
    requires size { (shape_of cache.old).size ≡ 512 }
    requires place { b < length fills.now }
    ensures { shape_of cache.new ≡ shape_of cache.old }
{
    let mut into = [0u8; 512];
    match cache.read(b, &mut into) {
        Ok(()) if into[0] == fills[b as usize] && into[511] == into[0] => Seen::Same,
        Ok(()) => Seen::Other,
        Err(_) => Seen::Failed,
    }
}

// Writes block `b`, or trims it where the byte is 0, and the array where that succeeded.
fn write_one<D: Disk>(cache: &mut Cache<D>, b: u64, fills: &mut [u8], byte: u8) -> Seen
    requires block { b < (shape_of cache.old).blocks }
    requires size { (shape_of cache.old).size ≡ 512 }
    requires place { b < length fills.old }
    ensures { shape_of cache.new ≡ shape_of cache.old }
{
    let from = [byte; 512];
    let done = if byte == 0 {
        cache.trim(b)
    } else {
        cache.write(b, &from)
    };
    if done.is_err() {
        return Seen::Failed;
    }
    fills[b as usize] = byte;
    Seen::Same
}

// One call, told by a drawn number.
fn call<D: Disk>(cache: &mut Cache<D>, fills: &mut [u8], x: u64) -> Seen
    requires some { 0 < (shape_of cache.old).blocks }
    requires size { (shape_of cache.old).size ≡ 512 }
    requires places { length fills.old ≡ (shape_of cache.old).blocks }
    ensures { shape_of cache.new ≡ shape_of cache.old }
{
    let b = (x >> 32) % fills.len() as u64;
    match (x >> 20) % 64 {
        0 => match cache.flush() {
            Ok(()) => Seen::Same,
            Err(_) => Seen::Failed,
        },
        1..=30 => write_one(cache, b, fills, ((x >> 26) % 32) as u8),
        _ => read_one(cache, b, fills),
    }
}

/// Makes so many calls, drawn from a seed.
pub fn play<D: Disk>(cache: &mut Cache<D>, fills: &mut [u8], seed: u64, calls: u32) -> Tally
    requires some { 0 < (shape_of cache.old).blocks }
    requires size { (shape_of cache.old).size ≡ 512 }
    requires places { length fills.old ≡ (shape_of cache.old).blocks }
    ensures { shape_of cache.new ≡ shape_of cache.old }
{
    let mut x = seed;
    let mut tally = Tally {
        same: 0,
        other: 0,
        failed: 0,
    };
    for _ in 0..calls {
        x = drawn(x);
        match call(cache, fills, x) {
            Seen::Same => tally.same = tally.same.wrapping_add(1),
            Seen::Other => tally.other = tally.other.wrapping_add(1),
            Seen::Failed => tally.failed = tally.failed.wrapping_add(1),
        }
    }
    tally
}
