// Bytes that stay as they are, for all who hold them, and that contracts see as a list.
ghost use Rattle.std.specs.Prelude.{◌≡◌, [], length, IfOk, slice_get};
ghost use Rattle.std.specs.Option.{option_copied};

use host_block::Oom;
use std::alloc::Global;
use std::marker::Model;
use std::sync::ArcSlice;

/// Bytes that never change, so that who shares them takes no memory for them.
#[derive(Drop)]
pub struct SharedBytes {
    bytes: Option<ArcSlice<u8, Global>>,
}

impl Model for SharedBytes {
    ghost use Rattle.std.specs.Prelude.{ℕ, List, []};
    ghost use Rattle.std.specs.Option.{option_map_or};
    ghost use Rattle.std.specs.Arc.{arc_slice_items};

    ghost Value = { List ℕ };

    ghost view = { λ b. option_map_or arc_slice_items b.bytes [] };
}

impl SharedBytes {
    /// No bytes, which take no memory.
    pub fn empty() -> SharedBytes
        ensures { result ≡ [] }
    {
        SharedBytes { bytes: None }
    }

    /// A copy of these bytes.
    pub fn copied(alloc: Global, from: &[u8]) -> Result<SharedBytes, Oom>
        ensures { IfOk result (λ b. b ≡ from.now) }
    {
        match ArcSlice::from_slice(alloc, from) {
            Ok(bytes) => Ok(SharedBytes { bytes: Some(bytes) }),
            Err(_) => Err(Oom),
        }
    }

    /// The same bytes once more, which are not copied.
    pub fn share(&self) -> Result<SharedBytes, Oom>
        ensures { IfOk result (λ b. b ≡ self.now) }
    {
        let Some(bytes) = &self.bytes else {
            return Ok(SharedBytes::empty());
        };
        match bytes.clone() {
            Ok(bytes) => Ok(SharedBytes { bytes: Some(bytes) }),
            Err(_) => Err(Oom),
        }
    }

    pub fn len(&self) -> u64
        ensures { result ≡ length self.now }
    {
        self.as_slice().len() as u64
    }

    pub fn get(&self, i: u64) -> Option<&u8>
        ensures { option_copied result ≡ slice_get self.now i }
    {
        self.as_slice().get(i as usize)
    }

    pub fn as_slice(&self) -> &[u8]
        ensures { result.now ≡ self.now }
    {
        match &self.bytes {
            Some(bytes) => bytes.as_slice(),
            None => &[],
        }
    }
}
