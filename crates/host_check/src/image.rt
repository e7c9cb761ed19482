//! Whether a report is of an image and on its table.
ghost use Rattle.std.specs.Prelude.{◌≡◌, ◌↔◌, ◌==◌, IsTrue, length, IfOk};
ghost use Rattle.std.specs.List.{AllByRecursion, list_all};
ghost use Rattle.host_gpt.specs.Entries.{AreUsed};
ghost use Rattle.host_gpt.specs.Table.{IsTable};
ghost use Rattle.host_part.specs.Ranges.{IsRangeOf};
ghost use Rattle.host_report.specs.Lawful.{IsOfImage, IsOnTable};

use host_block::{Bytes, Oom, Range};
use host_gpt::{Table, Which};
use host_part::{PartError, Parts, serve};
use host_report::{Report, SessionReport};
use std::alloc::Global;

fn have_size(image: &[Bytes], size: u64) -> bool
    ensures { result ≡ list_all (λ block. length block == size) image.now }
{
    image.iter().all(|block| block.len() == size)
}

/// Whether the number and the size of the report's blocks are the image's.
#[tactic(auto, using(crate::proofs::ImageLemmas::image_is))]
pub fn is_of_image(image: &[Bytes], report: &Report) -> bool
    ensures { IsTrue result ↔ IsOfImage image.now report.now }
{
    let as_many = report.blocks == image.len() as u64;
    let sized = have_size(image, report.size.bytes() as u64);
    as_many & sized
}

fn is_same_range(a: Range, b: Range) -> bool
    ensures { IsTrue result ↔ (a ≡ b) }
{
    a == b
}

// Whether the range is that of the served partition with this number.
fn is_range(parts: &Parts, number: u32, range: &Range) -> bool
    requires { AreUsed parts.now.entries }
    ensures { IsTrue result ↔ IsRangeOf parts.now number range.now }
{
    match parts.range(number) {
        Ok(served) => is_same_range(served, *range),
        Err(PartError::Unused) => false,
        Err(PartError::BadEntry) => false,
    }
}

// Whether each session is on a served partition.
fn are_partitions(parts: &Parts, sessions: &[SessionReport]) -> bool
    requires { AreUsed parts.now.entries }
    ensures { IsTrue result
        ↔ AllByRecursion (λ s. IsRangeOf parts.now s.part s.range) sessions.now }
{
    match sessions {
        [] => true,
        [session, rest @ ..] => {
            let here = is_range(parts, session.part, &session.range);
            let later = are_partitions(parts, rest);
            here & later
        }
    }
}

fn is_same_header(a: Which, b: Which) -> bool
    ensures { IsTrue result ↔ (a ≡ b) }
{
    a == b
}

/// Whether the report's header is the one that the image's table is read by, and its sessions are
/// on partitions that this table serves.
pub fn is_on_table(
    alloc: Global,
    image: &[Bytes],
    table: &Table,
    report: &Report,
) -> Result<bool, Oom>
    requires table { IsTable image.now table.now.which table.now.disk_id table.now.first_usable
        table.now.last_usable table.now.entries.items }
    requires entries { AreUsed table.now.entries.items }
    ensures { IfOk result (λ b. IsTrue b ↔ IsOnTable image.now report.now) }
{
    let parts = serve(alloc, table, image.len() as u64)?;
    let which = is_same_header(report.which, table.which);
    let ranges = are_partitions(&parts, report.sessions.as_slice());
    Ok(which & ranges)
}
