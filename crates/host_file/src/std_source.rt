//! A reader as the source of a script.
ghost use Rattle.std.specs.Prelude.{◌≤◌, length, IfSome};

use host_io::{Source, SourceFailed};
use std::io::{ErrorKind, Read};

/// A source that reads from `reader`, and tells nothing of what is left.
#[derive(Drop)]
pub struct StdSource<R> {
    reader: R,
    faults: u64,
}

impl<R: Read> StdSource<R> {
    ghost use Rattle.std.specs.Prelude.{◌≡◌};
    ghost use Rattle.host_file.specs.StdStreams.{std_source_faults};

    /// A source that hasn't failed.
    pub fn new(reader: R) -> StdSource<R>
        ensures { std_source_faults result ≡ 0 }
    {
        StdSource { reader, faults: 0 }
    }
}

impl<R: Read> Source for StdSource<R> {
    ghost use Rattle.std.specs.Prelude.{false, []};
    ghost use Rattle.host_file.specs.StdStreams.{std_source_faults};

    ghost tells = { λ s. false };

    ghost left = { λ s. [] };

    ghost faults = { std_source_faults };

    fn take(&mut self, into: &mut [u8]) -> Result<usize, SourceFailed> {
        match read(&mut self.reader, into) {
            Some(count) => Ok(count),
            None => {
                self.faults = self.faults.saturating_add(1);
                Err(SourceFailed)
            }
        }
    }
}

// Reads once, again where a signal interrupts it.
fn read<R: Read>(reader: &mut R, into: &mut [u8]) -> Option<usize>
    ensures { IfSome result (λ count. count ≤ length into.new) }
{
    for _ in 0..u64::MAX {
        match reader.read(into) {
            Ok(count) => return Some(count),
            Err(error) if error.kind() == ErrorKind::Interrupted => {}
            Err(_) => return None,
        }
    }
    None
}
