// The size of a block, which contracts see as its number of bytes.
ghost use Rattle.std.specs.Prelude.{◌≡◌, ◌↔◌, IsSome, IfSome};
ghost use Rattle.host_block.specs.Size.{IsBlockSize};

use std::marker::Model;

/// The number of bytes of a block: 512, 1024, 2048 or 4096.
#[derive(Clone, Copy, Debug, PartialEq, Eq)]
pub struct BlockSize {
    bytes: u32,
}

impl Model for BlockSize {
    ghost use Rattle.std.specs.Prelude.{ℕ};
    ghost use Rattle.host_block.specs.Size.{IsBlockSize};

    ghost Value = { ℕ };

    ghost view = { λ s. s.bytes };

    ghost invariant = { λ s. IsBlockSize s.bytes };

    ghost inverse = { λ n. record { bytes = n } };
}

impl BlockSize {
    /// The size of `n` bytes, where a block may have it.
    pub fn new(n: u32) -> Option<BlockSize>
        ensures allowed { IsSome result ↔ IsBlockSize n }
        ensures value { IfSome result (λ size. size ≡ n) }
    {
        match n {
            512 | 1024 | 2048 | 4096 => Some(BlockSize { bytes: n }),
            _ => None,
        }
    }

    pub fn bytes(self) -> u32
        ensures value { result ≡ self }
        ensures allowed { IsBlockSize result }
    {
        self.bytes
    }
}
