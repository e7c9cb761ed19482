// Why a call of a cache failed.
ghost use Rattle.std.specs.Prelude.{◌≡◌};
ghost use Rattle.host_cache.specs.Outcomes.{cache_error_of};

use host_io::DiskError;
use thiserror::Error;

#[derive(Clone, Copy, Debug, PartialEq, Eq, Error)]
pub enum CacheError {
    /// The disk failed, and its count of faults rose.
    #[error("the disk failed")]
    Disk,
    /// Memory was refused.
    #[error("out of memory")]
    Oom,
}

impl From<DiskError> for CacheError {
    ghost from_gives = { λ error e. e ≡ cache_error_of error };

    fn from(error: DiskError) -> CacheError {
        match error {
            DiskError::Failed => CacheError::Disk,
            DiskError::Oom => CacheError::Oom,
        }
    }
}
