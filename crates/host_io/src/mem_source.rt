// A source in memory.
ghost use Rattle.std.specs.Prelude.{◌≤◌, length};

use crate::fails::is_listed;
use crate::{Source, SourceFailed};

/// A source of these bytes. The listed calls fail; the first call has the number 1.
#[derive(Drop)]
pub struct MemSource {
    bytes: Vec<u8>,
    at: usize,
    fails: Vec<u64>,
    calls: u64,
    faults: u64,
    ghost within: { at ≤ length bytes.items },
}

impl MemSource {
    ghost use Rattle.host_io.specs.MemSource.{IsSourceMadeOf};

    pub fn new(bytes: Vec<u8>, fails: Vec<u64>) -> MemSource
        ensures { IsSourceMadeOf bytes.items fails.items result }
    {
        MemSource {
            bytes,
            at: 0,
            fails,
            calls: 0,
            faults: 0,
        }
    }
}

impl Source for MemSource {
    ghost use Rattle.std.specs.Prelude.{◌≡◌, ◌↔◌, true, min, length, IsErr, IfOk, OnErr, Contains};
    ghost use Rattle.host_io.specs.Causes.{HasCause, faults_after, next_count};
    ghost use Rattle.host_io.specs.MemSource.{source_left, source_faults, source_fails};
    ghost use Rattle.host_io.specs.MemSource.{source_calls};
    ghost use Rattle.host_io.specs.Streams.{TakesAtMost, Takes};

    ghost tells = { λ s. true };

    ghost left = { source_left };

    ghost faults = { source_faults };

    fn take(&mut self, into: &mut [u8]) -> Result<usize, SourceFailed>
        ensures bound { TakesAtMost into.old result }
        ensures bytes { Takes true (source_left self.old) (source_left self.new) into.new result }
        ensures cause { HasCause (source_faults self.old) (source_faults self.new) result }
        // What no source owes but this one.
        ensures fails { IsErr result
            ↔ Contains (source_fails self.old) (next_count (source_calls self.old)) }
        ensures count { IfOk result
            (λ n. n ≡ min (length into.old) (length (source_left self.old))) }
        ensures left { OnErr result (source_left self.new ≡ source_left self.old) }
        ensures faults { source_faults self.new ≡ faults_after result (source_faults self.old) }
        ensures listed { source_fails self.new ≡ source_fails self.old }
        ensures calls { source_calls self.new ≡ next_count (source_calls self.old) }
    {
        self.calls = self.calls.saturating_add(1);
        if is_listed(&self.fails, self.calls) {
            self.faults = self.faults.saturating_add(1);
            return Err(SourceFailed);
        }
        let count = into.len().min(self.bytes.len() - self.at);
        into[..count].copy_from_slice(&self.bytes[self.at..self.at + count]);
        self.at += count;
        Ok(count)
    }
}
