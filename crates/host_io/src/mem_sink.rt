// A sink in memory.
ghost use Rattle.std.specs.Prelude.{◌≤◌, length, vec_capacity};

use crate::fails::is_listed;
use crate::{Sink, SinkFailed};
use host_block::Oom;
use std::alloc::Global;

/// A sink with room for so many bytes. The listed calls fail, of which the first has the number 1,
/// and those where nothing fits.
#[derive(Drop)]
pub struct MemSink {
    bytes: Vec<u8>,
    room: usize,
    fails: Vec<u64>,
    calls: u64,
    faults: u64,
    ghost within: { length bytes.items ≤ room },
    ghost held: { room ≤ vec_capacity bytes },
}

impl MemSink {
    ghost use Rattle.std.specs.Prelude.{◌≡◌, ◌↔◌, IsTrue, IfOk};
    ghost use Rattle.host_io.specs.MemSink.{IsSinkMadeOf, FailsToPut, sink_appended};

    /// An empty sink, which takes its memory for `room` bytes here.
    pub fn new(alloc: Global, room: u32, fails: Vec<u64>) -> Result<MemSink, Oom>
        ensures { IfOk result (IsSinkMadeOf room fails.items) }
    {
        match Vec::with_capacity(alloc, room as usize) {
            Ok(bytes) => Ok(MemSink {
                bytes,
                room: room as usize,
                fails,
                calls: 0,
                faults: 0,
            }),
            Err(_) => Err(Oom),
        }
    }

    // Whether the next call with this piece fails.
    fn fails_to_put(&self, from: &[u8]) -> bool
        ensures { IsTrue result ↔ FailsToPut self.now from.now }
    {
        if self.bytes.len() == self.room && !from.is_empty() {
            return true;
        }
        is_listed(&self.fails, self.calls.saturating_add(1))
    }

    /// What was appended.
    pub fn bytes(&self) -> &[u8]
        ensures { result.now ≡ sink_appended self.now }
    {
        &self.bytes
    }
}

impl Sink for MemSink {
    ghost use Rattle.std.specs.Prelude.{◌≡◌, ◌+◌, ◌↔◌, true, min, length, IsErr, IfOk};
    ghost use Rattle.host_io.specs.Causes.{HasCause, faults_after, next_count};
    ghost use Rattle.host_io.specs.MemSink.{sink_appended, sink_faults, sink_room, sink_fails};
    ghost use Rattle.host_io.specs.MemSink.{sink_calls, FailsToPut};
    ghost use Rattle.host_io.specs.Streams.{PutsSome, Puts};

    ghost tells = { λ s. true };

    ghost appended = { sink_appended };

    ghost faults = { sink_faults };

    fn put(&mut self, from: &[u8]) -> Result<usize, SinkFailed>
        ensures some { PutsSome from.now result }
        ensures bytes { Puts true (sink_appended self.old) (sink_appended self.new) from.now
            result }
        ensures cause { HasCause (sink_faults self.old) (sink_faults self.new) result }
        // What no sink owes but this one.
        ensures fails { IsErr result ↔ FailsToPut self.old from.now }
        ensures count { IfOk result (λ n. n ≡ min (length from.now) (sink_room self.old)) }
        ensures faults { sink_faults self.new ≡ faults_after result (sink_faults self.old) }
        ensures listed { sink_fails self.new ≡ sink_fails self.old }
        ensures calls { sink_calls self.new ≡ next_count (sink_calls self.old) }
        ensures room { length (sink_appended self.new) + sink_room self.new
            ≡ length (sink_appended self.old) + sink_room self.old }
    {
        let fails = self.fails_to_put(from);
        self.calls = self.calls.saturating_add(1);
        if fails {
            self.faults = self.faults.saturating_add(1);
            return Err(SinkFailed);
        }
        let count = from.len().min(self.room - self.bytes.len());
        match self.bytes.extend_from_slice(&from[..count]) {
            Ok(()) => Ok(count),
            Err(_) => unreachable!("the bytes fit the capacity"),
        }
    }
}
