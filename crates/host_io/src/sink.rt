// What a text goes into.
ghost use Rattle.std.specs.Prelude.{◌≡◌, ℕ, Bool, List};
ghost use Rattle.host_io.specs.Causes.{HasCause};
ghost use Rattle.host_io.specs.Streams.{PutsSome, Puts};

use thiserror::Error;

/// The sink failed, and its count of faults rose.
#[derive(Clone, Copy, Debug, PartialEq, Eq, Error)]
#[error("the sink failed")]
pub struct SinkFailed;

pub trait Sink {
    /// Whether it tells what was appended.
    ghost tells: { Self → Bool };

    /// The bytes that were appended, where it tells.
    ghost appended: { Self → List ℕ };

    /// How often it has failed.
    ghost faults: { Self → ℕ };

    /// Appends a front of `from`, which is empty only where `from` is, and says its length.
    fn put(&mut self, from: &[u8]) -> Result<usize, SinkFailed>
        ensures tells { tells self.new ≡ tells self.old }
        ensures some { PutsSome from.now result }
        ensures bytes { Puts (tells self.old) (appended self.old) (appended self.new) from.now
            result }
        ensures cause { HasCause (faults self.old) (faults self.new) result };
}
