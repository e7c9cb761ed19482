//! How a member ended, in one word.
ghost use Rattle.std.specs.Prelude.{◌≡◌};
ghost use Rattle.host_group.specs.Failures.{failure_word, status_of};

use host_record::Status;

/// The word where nobody failed, the greatest of all.
pub(crate) const NO_FAILURE: u64 = u64::MAX;

/// The index decides first: of two failures the one with the lesser index has the lesser word.
pub(crate) fn failure_word(index: u32, status: Status) -> u64
    ensures { result ≡ failure_word index status }
{
    let bits = match status {
        Status::Ok => return NO_FAILURE,
        Status::NotSupported => 1,
        Status::NoMemory => 2,
        Status::InvalidArgs => 3,
        Status::OutOfRange => 4,
        Status::TooSmall => 5,
        Status::NotFound => 6,
        Status::Io => 7,
    };
    8 * index as u64 + bits
}

/// The status that a failure's word tells.
pub(crate) fn status_of(word: u64) -> Status
    ensures { result ≡ status_of word }
{
    if word == NO_FAILURE {
        return Status::Ok;
    }
    match word % 8 {
        1 => Status::NotSupported,
        2 => Status::NoMemory,
        3 => Status::InvalidArgs,
        4 => Status::OutOfRange,
        5 => Status::TooSmall,
        6 => Status::NotFound,
        _ => Status::Io,
    }
}
