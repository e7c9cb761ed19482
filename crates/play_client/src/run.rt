// A script is played on a disk in memory.
ghost use Rattle.std.specs.Prelude.{IfSome};
ghost use Rattle.host_play.specs.Stages.{IsSetting};
ghost use Rattle.script_model.specs.Plans.{plans_of};
ghost use Rattle.script_played.specs.Played.{PlaysPlans};

use crate::begun::{begin, ground_of, ranges_of};
use host_block::BlockSize;
use host_io::{FailAt, Gate, MemDisk};
use host_play::{Setting, play};
use host_report::Report;
use host_script::Script;
use std::alloc::Global;
use std::sync::Wait;
use std::thread::Threads;

/// A script, the report of the run that played it, and the disk that it was played on.
#[derive(Drop)]
pub struct Run {
    pub script: Script,
    pub report: Report,
    pub disk: MemDisk,
}

/// Plays the script of this text on a disk that holds this image in blocks of 512 bytes, and fails
/// at these calls. `None` where memory was refused, or there is no such script, or an image that
/// lacks its partitions.
pub fn run_text<R: Threads + Wait + Sync, G: Gate + Sync>(
    rt: &R,
    alloc: Global,
    image: &[u8],
    text: &[u8],
    fails: Vec<FailAt>,
    setting: Setting,
    gate: &G,
) -> Option<Run>
    requires setting { IsSetting setting }
    ensures played { IfSome result (λ run. PlaysPlans (plans_of run.script) run.report) }
{
    let size = BlockSize::new(512)?;
    let start = begin(alloc, image, text, size)?;
    let Ok(ranges) = ranges_of(alloc, &start.places) else {
        return None;
    };
    let ground = ground_of(alloc, image, fails, &start)?;
    match play(rt, alloc, &start.script, &ranges, ground, setting, gate) {
        Ok(run) => Some(Run {
            script: start.script,
            report: run.report,
            disk: run.disk,
        }),
        Err(_) => None,
    }
}
