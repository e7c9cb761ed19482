//! Whether answers were received as they are due.
ghost use Rattle.std.specs.Prelude.{◌≡◌, ◌+◌, length, take, IfOk};
ghost use Rattle.std.specs.List.{list_all};
ghost use Rattle.host_model.specs.Answers.{is_answered_at_most, is_answered_exactly};
ghost use Rattle.host_model.specs.Lists.{below};

use crate::answers::answers_due;
use crate::counts::{are_as_often, are_within};
use crate::log::{answers_received, requests_sent};
use host_model::{Event, TakenRow};
use std::alloc::{AllocError, Global};

// Whether no answer was received more often than it is due.
fn at_most_due(alloc: Global, log: &[Event], rows: &[TakenRow]) -> Result<bool, AllocError>
    ensures { IfOk result (λ b. b ≡ is_answered_at_most log.now rows.now) }
{
    let rs = requests_sent(alloc, log)?;
    let due = answers_due(alloc, &rs, rows)?;
    let received = answers_received(alloc, log)?;
    Ok(are_within(&received, &due))
}

/// Whether each answer was received as often as it is due.
pub fn exactly_due(alloc: Global, log: &[Event], rows: &[TakenRow]) -> Result<bool, AllocError>
    ensures { IfOk result (λ b. b ≡ is_answered_exactly log.now rows.now) }
{
    let rs = requests_sent(alloc, log)?;
    let due = answers_due(alloc, &rs, rows)?;
    let received = answers_received(alloc, log)?;
    Ok(are_as_often(&received, &due))
}

/// Whether after each event no answer was received more often than it is due then.
#[tactic(auto, using(crate::proofs::AnsweredLemmas::all_below_more))]
pub fn always_at_most_due(
    alloc: Global,
    log: &[Event],
    rows: &[TakenRow],
) -> Result<bool, AllocError>
    ensures { IfOk result (λ b.
        b
        ≡ list_all (λ n. is_answered_at_most (take n log.now) rows.now)
        (below (length log.now + 1))) }
{
    let mut all = true;
    for n in 0..log.len() {
        let here = at_most_due(alloc, &log[..n], rows)?;
        all = all & here;
    }
    Ok(all & at_most_due(alloc, log, rows)?)
}
