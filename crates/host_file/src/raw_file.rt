//! What a file disk asks of the system.
ghost use Rattle.std.specs.Prelude.{ℕ, Bool, List, Option, Result, is_ok};
ghost use Rattle.host_file.specs.declared.raw_file.OpenError.{OpenError};

use thiserror::Error;

/// Why an image wasn't opened.
#[derive(Clone, Copy, Debug, PartialEq, Eq, Error)]
pub enum OpenError {
    /// Another program has it.
    #[error("another program has the image")]
    Held,
    #[error("the image can't be opened")]
    Failed,
}

/// The system refused a call, or did only a part of it.
#[derive(Clone, Copy, Debug, PartialEq, Eq, Error)]
#[error("the system refused a call")]
pub struct RawFailed;

/// One file of the system at a time, as it answers. Its ghost members say which answer led from
/// which state to which; so what is proved of a caller speaks of the answers that it got.
pub trait RawFile {
    /// An opening of this name, to be written or not, gave this answer: the length in bytes, or why
    /// there is none.
    ghost opens: { Self → List ℕ → Bool → Result ℕ OpenError → Self → Type 0 };

    /// The length was told, or wasn't.
    ghost measures: { Self → Option ℕ → Type 0 };

    /// A read at this place gave these bytes where the flag is true, else it failed.
    ghost reads: { Self → ℕ → List ℕ → Bool → Self → Type 0 };

    /// A write of these bytes at this place was done where the flag is true, else it failed.
    ghost puts: { Self → ℕ → List ℕ → Bool → Self → Type 0 };

    /// A sync was done where the flag is true, else it failed.
    ghost syncs: { Self → Bool → Self → Type 0 };

    /// Closes the file that is open, and opens this one, for this program alone where it is to be
    /// written. Tells its length.
    fn open(&mut self, name: &str, writes: bool) -> Result<u64, OpenError>
        ensures { opens self.old name.now writes result self.new };

    /// The present length of the open file.
    fn length(&self) -> Option<u64>
        ensures { measures self.now result };

    /// Fills `into` with the bytes at this place.
    fn read_at(&mut self, place: u64, into: &mut [u8]) -> Result<(), RawFailed>
        ensures { reads self.old place into.new (is_ok result) self.new };

    /// Puts all of `from` at this place.
    fn write_at(&mut self, place: u64, from: &[u8]) -> Result<(), RawFailed>
        ensures { puts self.old place from.now (is_ok result) self.new };

    /// Makes what was written durable.
    fn sync(&mut self) -> Result<(), RawFailed>
        ensures { syncs self.old (is_ok result) self.new };
}
