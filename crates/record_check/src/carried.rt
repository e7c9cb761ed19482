//! Whether each record taken is carried out by its steps.
ghost use Rattle.std.specs.Prelude.{◌↔◌, ◌≡◌, ◌<◌, ℕ, IsTrue, length, nat_lt, IfOk};
ghost use Rattle.std.specs.List.{list_all};
ghost use Rattle.record_check.specs.Carried.{IsCarriedBy};

use crate::answers::row;
use crate::carrying::is_carried_out;
use crate::log::request;
use crate::steps::record_steps;
use host_block::{Oom, Range};
use host_model::{Step, TakenRow};
use host_record::Request;
use std::alloc::Global;

/// Whether each record taken is carried out by its steps.
pub fn all_carried_out(
    alloc: Global,
    part: &Range,
    rs: &[Request],
    rows: &[TakenRow],
    steps: &[Step],
) -> Result<bool, Oom>
    ensures { IfOk result (λ b.
        IsTrue b
        ↔ ((i : ℕ) → i < length rows.now → IsCarriedBy part.now rs.now rows.now steps.now i)) }
{
    let mut all = true;
    for i in 0..rows.len() {
        let own = record_steps(alloc, steps, i)?;
        let here = is_carried_out(&row(rows, i), part, &request(rs, i), &own);
        all = all & here;
    }
    Ok(all)
}

/// Whether each step is of a record that was taken.
pub fn are_of_taken(rows: &[TakenRow], steps: &[Step]) -> bool
    ensures { result ≡ list_all (λ step. nat_lt step.index (length rows.now)) steps.now }
{
    steps.iter().all(|step| (step.index as usize) < rows.len())
}
