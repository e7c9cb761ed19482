ghost use Rattle.std.specs.Prelude.{◌≡◌};
ghost use Rattle.script_model.specs.declared.parse_error.ParseError.TheVariants.{Oom as OutOfMemory};

use crate::ScriptCause;
use host_block::Oom;
use std::alloc::AllocError;
use thiserror::Error;

/// Why there is no script.
#[derive(Clone, Copy, Debug, PartialEq, Eq, Error)]
pub enum ParseError {
    /// The first bad line, counted from 1, and the first cause in it.
    #[error("line {line}: {cause}")]
    Bad { line: u64, cause: ScriptCause },
    /// Memory was refused.
    #[error("out of memory")]
    Oom,
}

impl From<Oom> for ParseError {
    ghost from_gives = { λ _ e. e ≡ OutOfMemory };

    fn from(_error: Oom) -> ParseError {
        ParseError::Oom
    }
}

impl From<AllocError> for ParseError {
    ghost from_gives = { λ _ e. e ≡ OutOfMemory };

    fn from(_error: AllocError) -> ParseError {
        ParseError::Oom
    }
}
