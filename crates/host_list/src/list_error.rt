ghost use Rattle.std.specs.Prelude.{◌≡◌};
ghost use Rattle.host_list.specs.Answers.{list_error_of_disk, list_error_of_table};
ghost use Rattle.host_list.specs.declared.list_error.ListError.TheVariants.{Oom as NoMemory};

use host_block::Oom;
use host_gpt::TableError;
use host_io::DiskError;
use thiserror::Error;

/// Why the table of an image isn't listed, or not whole.
#[derive(Clone, Copy, Debug, PartialEq, Eq, Error)]
pub enum ListError {
    /// The disk failed, and its count of faults rose.
    #[error("the disk failed")]
    Disk,
    /// The image has more than 262,144 blocks.
    #[error("too many blocks")]
    TooManyBlocks,
    #[error("no partition table")]
    NoTable,
    #[error("the partition table is too large")]
    TableTooLarge,
    /// Memory was refused.
    #[error("out of memory")]
    Oom,
    /// The sink failed, and its count of faults rose. A front of the text was put.
    #[error("the sink failed")]
    Sink,
}

impl From<DiskError> for ListError {
    ghost from_gives = { λ error e. e ≡ list_error_of_disk error };

    fn from(error: DiskError) -> ListError {
        match error {
            DiskError::Failed => ListError::Disk,
            DiskError::Oom => ListError::Oom,
        }
    }
}

impl From<TableError> for ListError {
    ghost from_gives = { λ error e. e ≡ list_error_of_table error };

    fn from(error: TableError) -> ListError {
        match error {
            TableError::NoTable => ListError::NoTable,
            TableError::Disk => ListError::Disk,
            TableError::TooLarge => ListError::TableTooLarge,
            TableError::Oom => ListError::Oom,
        }
    }
}

impl From<Oom> for ListError {
    ghost from_gives = { λ _ e. e ≡ NoMemory };

    fn from(_error: Oom) -> ListError {
        ListError::Oom
    }
}
