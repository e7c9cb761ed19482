// What the words of a script come from.
ghost use Rattle.std.specs.Prelude.{◌≡◌, ℕ, Bool, List};
ghost use Rattle.host_io.specs.Causes.{HasCause};
ghost use Rattle.host_io.specs.Streams.{TakesAtMost, Takes};

use thiserror::Error;

/// The source failed, and its count of faults rose.
#[derive(Clone, Copy, Debug, PartialEq, Eq, Error)]
#[error("the source failed")]
pub struct SourceFailed;

pub trait Source {
    /// Whether it tells what is left.
    ghost tells: { Self → Bool };

    /// The bytes that are left, where it tells.
    ghost left: { Self → List ℕ };

    /// How often it has failed.
    ghost faults: { Self → ℕ };

    /// Takes the next bytes into the front of `into`, and says how many. Where `into` has room, 0
    /// is the end.
    fn take(&mut self, into: &mut [u8]) -> Result<usize, SourceFailed>
        ensures tells { tells self.new ≡ tells self.old }
        ensures bound { TakesAtMost into.old result }
        ensures bytes { Takes (tells self.old) (left self.old) (left self.new) into.new result }
        ensures cause { HasCause (faults self.old) (faults self.new) result };
}
