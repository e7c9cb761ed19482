use thiserror::Error;

/// Why a number has no range.
#[derive(Clone, Copy, Debug, PartialEq, Eq, Error)]
pub enum PartError {
    /// The number is that of no used entry.
    #[error("no such partition")]
    Unused,
    /// The entry reaches past the usable blocks, ends before it starts or shares a block with
    /// another one.
    #[error("bad partition entry")]
    BadEntry,
}
