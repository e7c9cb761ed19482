//! A source and a sink that count their calls, and those that failed.

use host_io::{MemSink, MemSource, Sink, SinkFailed, Source, SourceFailed};

/// How often an object was called, and how often it failed.
#[derive(Clone, Copy, Debug, PartialEq, Eq)]
pub struct CallCounts {
    pub calls: u64,
    pub faults: u64,
}

impl CallCounts {
    fn new() -> CallCounts {
        CallCounts {
            calls: 0,
            faults: 0,
        }
    }

    fn count(&mut self, is_fault: bool) {
        self.calls = self.calls.saturating_add(1);
        if is_fault {
            self.faults = self.faults.saturating_add(1);
        }
    }
}

#[derive(Drop)]
pub struct CountedSource {
    source: MemSource,
    pub counts: CallCounts,
}

impl CountedSource {
    pub fn new(source: MemSource) -> CountedSource {
        CountedSource {
            source,
            counts: CallCounts::new(),
        }
    }
}

impl Source for CountedSource {
    ghost use Rattle.std.specs.Prelude.{true};
    ghost use Rattle.host_io.specs.MemSource.{source_left, source_faults};

    ghost tells = { λ s. true };

    ghost left = { λ s. source_left s.source };

    ghost faults = { λ s. source_faults s.source };

    fn take(&mut self, into: &mut [u8]) -> Result<usize, SourceFailed> {
        let taken = self.source.take(into);
        self.counts.count(taken.is_err());
        taken
    }
}

#[derive(Drop)]
pub struct CountedSink {
    sink: MemSink,
    pub counts: CallCounts,
}

impl CountedSink {
    pub fn new(sink: MemSink) -> CountedSink {
        CountedSink {
            sink,
            counts: CallCounts::new(),
        }
    }

    /// What was put.
    pub fn bytes(&self) -> &[u8] {
        self.sink.bytes()
    }
}

impl Sink for CountedSink {
    ghost use Rattle.std.specs.Prelude.{true};
    ghost use Rattle.host_io.specs.MemSink.{sink_appended, sink_faults};

    ghost tells = { λ s. true };

    ghost appended = { λ s. sink_appended s.sink };

    ghost faults = { λ s. sink_faults s.sink };

    fn put(&mut self, from: &[u8]) -> Result<usize, SinkFailed> {
        let put = self.sink.put(from);
        self.counts.count(put.is_err());
        put
    }
}
