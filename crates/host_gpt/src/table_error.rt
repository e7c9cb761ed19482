ghost use Rattle.std.specs.Prelude.{◌≡◌};
ghost use Rattle.host_gpt.specs.Errors.{table_error_of};

use crate::read_error::ReadError;
use thiserror::Error;

/// Why there is no table to hand out.
#[derive(Clone, Copy, Debug, PartialEq, Eq, Error)]
pub enum TableError {
    /// No header is valid, and none passes a limit.
    #[error("no partition table")]
    NoTable,
    /// The disk failed, and its count of faults rose.
    #[error("the disk failed")]
    Disk,
    /// No header is valid, and one passes a limit: 1,024 entries, or 1,048,576 bytes of them.
    #[error("the partition table is too large")]
    TooLarge,
    /// Memory was refused.
    #[error("out of memory")]
    Oom,
}

impl From<ReadError> for TableError {
    ghost from_gives = { λ error e. e ≡ table_error_of error };

    fn from(error: ReadError) -> TableError {
        match error {
            ReadError::Disk => TableError::Disk,
            ReadError::Oom => TableError::Oom,
        }
    }
}
