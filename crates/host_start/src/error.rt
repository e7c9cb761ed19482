// Why a run is refused before its sessions begin.
ghost use Rattle.std.specs.Prelude.{◌≡◌};
ghost use Rattle.host_start.specs.Refusals.{limit_in, of_disk_error, of_table_error};
ghost use Rattle.host_start.specs.declared.error.StartError.TheVariants.{Oom as NoMemory};
ghost use Rattle.host_start.specs.declared.error.StartError.TheVariants.{Source as SourceFails};

use host_block::Oom;
use host_gpt::TableError;
use host_io::{DiskError, SourceFailed};
use script_model::ScriptCause;
use std::alloc::AllocError;
use thiserror::Error;

/// A limit that was passed.
#[derive(Clone, Copy, Debug, PartialEq, Eq)]
pub enum Limit {
    /// More than 1,048,576 bytes of a script.
    ScriptBytes,
    Sessions,
    Records,
    Moved,
    /// More than 262,144 blocks of an image.
    Blocks,
    Table,
}

impl From<script_model::Limit> for Limit {
    ghost from_gives = { λ passed limit. limit ≡ limit_in passed };

    fn from(passed: script_model::Limit) -> Limit {
        match passed {
            script_model::Limit::Sessions => Limit::Sessions,
            script_model::Limit::Records => Limit::Records,
            script_model::Limit::Moved => Limit::Moved,
        }
    }
}

/// Why no session begins.
#[derive(Clone, Copy, Debug, PartialEq, Eq, Error)]
pub enum StartError {
    /// The source of the script failed, and its count of faults rose.
    #[error("the script can't be read")]
    Source,
    /// The first bad line of the script, and the first cause in it.
    #[error("a bad line in the script")]
    BadScript { line: u64, cause: ScriptCause },
    #[error("a limit is passed")]
    TooLarge { what: Limit },
    /// The disk failed, and its count of faults rose.
    #[error("the disk failed")]
    Disk,
    #[error("no partition table")]
    NoTable,
    /// The first session whose partition isn't served.
    #[error("a partition that isn't served")]
    NoPart { session: u32, part: u32 },
    /// Memory was refused.
    #[error("out of memory")]
    Oom,
}

impl From<SourceFailed> for StartError {
    ghost from_gives = { λ _ error. error ≡ SourceFails };

    fn from(_error: SourceFailed) -> StartError {
        StartError::Source
    }
}

impl From<DiskError> for StartError {
    ghost from_gives = { λ failure error. error ≡ of_disk_error failure };

    fn from(failure: DiskError) -> StartError {
        match failure {
            DiskError::Failed => StartError::Disk,
            DiskError::Oom => StartError::Oom,
        }
    }
}

impl From<TableError> for StartError {
    ghost from_gives = { λ failure error. error ≡ of_table_error failure };

    fn from(failure: TableError) -> StartError {
        match failure {
            TableError::NoTable => StartError::NoTable,
            TableError::Disk => StartError::Disk,
            TableError::TooLarge => StartError::TooLarge { what: Limit::Table },
            TableError::Oom => StartError::Oom,
        }
    }
}

impl From<Oom> for StartError {
    ghost from_gives = { λ _ error. error ≡ NoMemory };

    fn from(_error: Oom) -> StartError {
        StartError::Oom
    }
}

impl From<AllocError> for StartError {
    ghost from_gives = { λ _ error. error ≡ NoMemory };

    fn from(_error: AllocError) -> StartError {
        StartError::Oom
    }
}
