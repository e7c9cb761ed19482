//! Whether each record taken has the entries that it has to have.
ghost use Rattle.std.specs.Prelude.{◌↔◌, ◌<◌, ℕ, IsTrue, length, IfOk};
ghost use Rattle.buffer_check.specs.Entries.{HasEntriesBy};

use crate::history::record_entries;
use crate::own_entries::is_whole;
use host_block::Oom;
use host_model::{MemEvent, Step, TakenRow};
use host_record::Request;
use record_check::{record_steps, request, row};
use std::alloc::Global;

fn has_entries(
    alloc: Global,
    rs: &[Request],
    rows: &[TakenRow],
    steps: &[Step],
    history: &[MemEvent],
    i: usize,
) -> Result<bool, Oom>
    ensures { IfOk result (λ b. IsTrue b ↔ HasEntriesBy rs.now rows.now steps.now history.now i) }
{
    let own = record_entries(alloc, i, history)?;
    let steps = record_steps(alloc, steps, i)?;
    Ok(is_whole(&own, row(rows, i), i, &request(rs, i), &steps))
}

/// Whether each record taken has the entries that it has to have.
pub fn all_have_entries(
    alloc: Global,
    rs: &[Request],
    rows: &[TakenRow],
    steps: &[Step],
    history: &[MemEvent],
) -> Result<bool, Oom>
    ensures { IfOk result (λ b.
        IsTrue b
        ↔ ((i : ℕ) → i < length rows.now → HasEntriesBy rs.now rows.now steps.now history.now i)) }
{
    let mut all = true;
    for i in 0..rows.len() {
        let here = has_entries(alloc, rs, rows, steps, history, i)?;
        all = all & here;
    }
    Ok(all)
}
