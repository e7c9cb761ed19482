//! One play of a case.

use crate::case::Case;
use crate::counted::{CallCounts, CountedSink, CountedSource};
use crate::failing::Fails;
use crate::gate::CaseGate;
use crate::image::image_of;
use crate::script::script_of;
use crate::words::Call;
use crate::wrong::Wrong;
use host_block::BlockSize;
use host_io::{MemDisk, MemSink, MemSource};
use host_run::{Outcome, run};
use std::alloc::Global;
use std::sync::Wait;
use std::thread::Threads;

/// What each play of a case begins with.
#[derive(Drop)]
pub struct Setup {
    pub image: Vec<u8>,
    pub script: Vec<u8>,
}

impl Setup {
    pub fn of(alloc: Global, case: &Case<'_>) -> Result<Setup, Wrong> {
        Ok(Setup {
            image: image_of(alloc, &case.image)?,
            script: script_of(alloc, &case.script)?,
        })
    }
}

/// What a play left.
#[derive(Drop)]
pub struct Left {
    pub status: u8,
    pub text: Vec<u8>,
    pub outcome: Outcome<MemDisk>,
    pub source: CallCounts,
    pub sink: CallCounts,
    pub was_opened: bool,
}

impl Left {
    /// The disk that was played on.
    pub fn disk(&self) -> &MemDisk {
        match &self.outcome.dry {
            Some(disk) => disk,
            None => &self.outcome.disk,
        }
    }

    /// The size of its blocks.
    pub fn size(&self) -> Option<BlockSize> {
        match &self.outcome.report {
            Some(report) => Some(report.size),
            None => BlockSize::new(512),
        }
    }
}

/// Calls the program once.
pub fn play<R: Threads + Wait + Sync>(
    rt: &R,
    alloc: Global,
    case: &Case<'_>,
    setup: &Setup,
    call: &Call<'_>,
    fails: Fails,
) -> Result<Left, Wrong> {
    let words: Vec<&str> = call.words.iter().map(|word| word.as_str()).collect(alloc)?;
    let gate = CaseGate::new(alloc, &case.holds, case.looks)?;
    let Fails { disk, source, sink } = fails;
    let script = setup.script.as_slice().to_vec(alloc)?;
    let image = setup.image.as_slice().to_vec(alloc)?;
    let mut source = CountedSource::new(MemSource::new(script, source));
    let mut sink = CountedSink::new(MemSink::new(alloc, case.room, sink)?);
    let disk = MemDisk::new(alloc, image, disk);
    let outcome = run(rt, alloc, &words, &mut source, disk, &mut sink, &gate);
    Ok(Left {
        status: outcome.status.number(),
        text: sink.bytes().to_vec(alloc)?,
        outcome,
        source: source.counts,
        sink: sink.counts,
        was_opened: gate.was_opened(),
    })
}
