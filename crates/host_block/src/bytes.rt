// A piece of bytes of fixed length, which contracts see as a list.
ghost use Rattle.std.specs.Prelude.{◌≡◌, ◌++◌, ℕ, List, [], length, take, drop, replicate, IfOk};
ghost use Rattle.std.specs.Prelude.{slice_get};
ghost use Rattle.std.specs.Option.{option_copied};
ghost use Rattle.std.specs.Borrow.{Lends, Array, sem};
ghost use Rattle.std.specs.Borrow.{u8 as byte};
ghost use Rattle.host_block.specs.contracts.bytes.Bytes.{the_row};

use crate::Oom;
use std::alloc::Global;
use std::marker::Model;

/// So many bytes, fixed when they are made.
#[derive(Drop)]
pub struct Bytes {
    bytes: Vec<u8>,
}

impl Model for Bytes {
    ghost use Rattle.std.specs.Prelude.{ℕ, List};

    ghost Value = { List ℕ };

    ghost view = { λ b. b.bytes.items };
}

impl Bytes {
    /// No bytes, which take no memory.
    pub fn empty(alloc: Global) -> Bytes
        ensures { result ≡ [] }
    {
        Bytes {
            bytes: Vec::new(alloc),
        }
    }

    /// `n` zero bytes.
    pub fn zeroed(alloc: Global, n: u32) -> Result<Bytes, Oom>
        ensures { IfOk result (λ b. b ≡ replicate n 0) }
    {
        match vec![in alloc; 0u8; n as usize] {
            Ok(bytes) => Ok(Bytes { bytes }),
            Err(_) => Err(Oom),
        }
    }

    /// A copy of these bytes.
    pub fn copied(alloc: Global, from: &[u8]) -> Result<Bytes, Oom>
        ensures { IfOk result (λ b. b ≡ from.now) }
    {
        match from.to_vec(alloc) {
            Ok(bytes) => Ok(Bytes { bytes }),
            Err(_) => Err(Oom),
        }
    }

    pub fn len(&self) -> u64
        ensures { result ≡ length self.now }
    {
        self.bytes.len() as u64
    }

    pub fn get(&self, i: u64) -> Option<&u8>
        ensures { option_copied result ≡ slice_get self.now i }
    {
        self.bytes.get(i as usize)
    }

    pub fn as_slice(&self) -> &[u8]
        ensures { result.now ≡ self.now }
    {
        &self.bytes
    }

    pub fn as_mut_slice(&mut self) -> &mut [u8]
        ensures* writes_back { sem 𝓛 (Lends the_row (Array byte 0) self.entry result
            (λ w. take (length self.old) (w ++ drop (length w) self.old))) }
        ensures value { result.now ≡ self.old }
    {
        &mut self.bytes
    }
}
