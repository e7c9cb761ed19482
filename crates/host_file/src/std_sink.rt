//! A writer as the sink of a text.
ghost use Rattle.std.specs.Prelude.{◌<◌, ◌≤◌, length, IfSome};

use host_io::{Sink, SinkFailed};
use std::io::{ErrorKind, Write};

/// A sink that writes to `writer`, and tells nothing of what was written.
#[derive(Drop)]
pub struct StdSink<W> {
    writer: W,
    faults: u64,
}

impl<W: Write> StdSink<W> {
    ghost use Rattle.std.specs.Prelude.{◌≡◌};
    ghost use Rattle.host_file.specs.StdStreams.{std_sink_faults};

    /// A sink that hasn't failed.
    pub fn new(writer: W) -> StdSink<W>
        ensures { std_sink_faults result ≡ 0 }
    {
        StdSink { writer, faults: 0 }
    }
}

impl<W: Write> Sink for StdSink<W> {
    ghost use Rattle.std.specs.Prelude.{false, []};
    ghost use Rattle.host_file.specs.StdStreams.{std_sink_faults};

    ghost tells = { λ s. false };

    ghost appended = { λ s. [] };

    ghost faults = { std_sink_faults };

    fn put(&mut self, from: &[u8]) -> Result<usize, SinkFailed> {
        match write(&mut self.writer, from) {
            Some(count) => Ok(count),
            None => {
                self.faults = self.faults.saturating_add(1);
                Err(SinkFailed)
            }
        }
    }
}

// Writes once, again where a signal interrupts it. It has failed where there was something to write
// and nothing was taken.
fn write<W: Write>(writer: &mut W, from: &[u8]) -> Option<usize>
    ensures most { IfSome result (λ count. count ≤ length from.now) }
    ensures some { IfSome result (λ count. 0 < length from.now → 1 ≤ count) }
{
    for _ in 0..u64::MAX {
        match writer.write(from) {
            Ok(0) if !from.is_empty() => return None,
            Ok(count) => return Some(count),
            Err(error) if error.kind() == ErrorKind::Interrupted => {}
            Err(_) => return None,
        }
    }
    None
}
