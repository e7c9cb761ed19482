//! Whether the report of a run is lawful.
ghost use Rattle.std.specs.Prelude.{◌≡◌, ◌↔◌, ◌++◌, IsTrue, filter, length, IfOk};
ghost use Rattle.host_gpt.specs.Entries.{AreUsed};
ghost use Rattle.host_gpt.specs.Table.{IsTable};
ghost use Rattle.host_check.specs.Parts.{TellsParts};
ghost use Rattle.host_report.specs.Lawful.{IsLawful, IsLawfulRun, closing_steps, is_of_sessions};

use crate::closing::ends_with_closing;
use crate::frames::ran_short_rightly;
use crate::image::{is_of_image, is_on_table};
use crate::legal::is_legal;
use crate::parts::RunParts;
use crate::run::{are_lawful, are_numbered};
use host_block::{Bytes, Oom};
use host_gpt::Table;
use host_report::Report;
use std::alloc::Global;

// Whether the steps are those of the sessions and then the closing flush.
fn is_closed_rightly(alloc: Global, report: &Report) -> Result<bool, Oom>
    ensures { IfOk result (λ b.
        IsTrue b
        ↔ (report.now.steps.items
        ≡ filter (is_of_sessions (length report.now.sessions.items)) report.now.steps.items
        ++ closing_steps report.now.closing)) }
{
    let n = report.sessions.len() as usize;
    let closed = ends_with_closing(alloc, report.steps.as_slice(), n, report.closing)?;
    Ok(closed)
}

fn are_home(report: &Report) -> bool
    ensures { IsTrue result ↔ (report.now.frames_home ≡ 4096) }
{
    report.frames_home == 4096
}

/// Which parts of the run are as they have to be.
pub fn run_parts(alloc: Global, image: &[Bytes], report: &Report) -> Result<RunParts, Oom>
    ensures { IfOk result (TellsParts image.now report.now) }
{
    let sessions = report.sessions.as_slice();
    let lawful = are_lawful(alloc, report, sessions)?;
    let closing = is_closed_rightly(alloc, report)?;
    let legal = is_legal(alloc, image, report.steps.as_slice())?;
    Ok(RunParts {
        numbers: are_numbered(sessions),
        sessions: lawful,
        closing,
        legal,
        frames: ran_short_rightly(sessions),
        home: are_home(report),
    })
}

/// Whether the run is lawful, but for its partitions.
#[tactic(auto, using(crate::proofs::RunLemmas::run_is))]
pub fn is_lawful_run(alloc: Global, image: &[Bytes], report: &Report) -> Result<bool, Oom>
    ensures { IfOk result (λ b. IsTrue b ↔ IsLawfulRun image.now report.now) }
{
    let parts = run_parts(alloc, image, report)?;
    Ok(parts.are_whole())
}

/// Whether the report is lawful for the image, whose table this is.
pub fn is_lawful(
    alloc: Global,
    image: &[Bytes],
    table: &Table,
    report: &Report,
) -> Result<bool, Oom>
    requires table { IsTable image.now table.now.which table.now.disk_id table.now.first_usable
        table.now.last_usable table.now.entries.items }
    requires entries { AreUsed table.now.entries.items }
    ensures { IfOk result (λ b. IsTrue b ↔ IsLawful image.now report.now) }
{
    let of_image = is_of_image(image, report);
    let on_table = is_on_table(alloc, image, table, report)?;
    let run = is_lawful_run(alloc, image, report)?;
    Ok(of_image & on_table & run)
}
