ghost use Rattle.std.specs.Prelude.{◌≡◌};
ghost use Rattle.host_words.specs.declared.words_error.WordsError.TheVariants.{Oom as OutOfMemory};

use std::alloc::AllocError;
use thiserror::Error;

/// Why there is no command.
#[derive(Clone, Copy, Debug, PartialEq, Eq, Error)]
pub enum WordsError {
    /// The words are outside the grammar.
    #[error("no command has these words")]
    BadWords,
    /// Memory was refused.
    #[error("out of memory")]
    Oom,
}

impl From<AllocError> for WordsError {
    ghost from_gives = { λ _ e. e ≡ OutOfMemory };

    fn from(_error: AllocError) -> WordsError {
        WordsError::Oom
    }
}
