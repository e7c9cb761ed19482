//! Whether the records of a session were taken in order, carried out and answered.
ghost use Rattle.std.specs.Prelude.{◌≡◌, ◌↔◌, ◌≤◌, ◌++◌, [], ◌∷◌, IsTrue, filter, filter_map};
ghost use Rattle.std.specs.Prelude.{length, map, not, IfOk};
ghost use Rattle.host_model.specs.Answers.{AreDueAnswers, is_answered_exactly};
ghost use Rattle.host_model.specs.Carrying.{AreCarriedOut};
ghost use Rattle.host_model.specs.Lists.{below};
ghost use Rattle.host_model.specs.Log.{sent, sent_index};
ghost use Rattle.host_model.specs.Taking.{IsTakenInOrder, end_event, is_drain, is_end};
ghost use Rattle.host_model.specs.Verdict.{verdicts};
ghost use Rattle.record_check.specs.Session.{session_with};

use crate::answered::{always_at_most_due, exactly_due};
use crate::carried::{all_carried_out, are_of_taken};
use crate::log::{requests_sent, sent_count};
use crate::taking::{all_lack_ids_rightly, count_from, ends_rightly, have_verdicts, indexes_sent};
use crate::verdicts::verdicts_of;
use host_block::{Oom, Range};
use host_model::{Event, MemEvent, Step, TakenRow};
use host_record::Finish;
use std::alloc::{AllocError, Global};

// Whether the records sent are numbered from 0.
#[tactic(auto, using(crate::proofs::TakingLemmas::numbered_is))]
fn are_numbered(alloc: Global, log: &[Event]) -> Result<bool, AllocError>
    ensures { IfOk result
        (λ b. IsTrue b ↔ (filter_map sent_index log.now ≡ below (length (sent log.now)))) }
{
    let indexes = indexes_sent(alloc, log)?;
    Ok(count_from(&indexes, 0))
}

// Whether the rows have the verdicts on the records.
fn are_judged(
    alloc: Global,
    part: &Range,
    log: &[Event],
    rows: &[TakenRow],
) -> Result<bool, AllocError>
    ensures { IfOk result (λ b.
        IsTrue b
        ↔ (map (λ row. row.verdict) rows.now ≡ verdicts log.now part.now (length rows.now))) }
{
    let rs = requests_sent(alloc, log)?;
    let verdicts = verdicts_of(alloc, log, &rs, part, rows.len())?;
    Ok(have_verdicts(rows, &verdicts))
}

// Whether the log ends as the session was ended.
#[tactic(auto, using(crate::proofs::TakingLemmas::ends_is))]
fn ends_as_finished(log: &[Event], finish: Finish) -> bool
    ensures { IsTrue result
        ↔ (log.now ≡ filter (λ e. not (is_end e)) log.now ++ end_event finish ∷ []) }
{
    ends_rightly(log, finish)
}

// Whether after a drain every record was taken.
fn are_all_taken(log: &[Event], rows: &[TakenRow], finish: Finish) -> bool
    ensures { IsTrue result ↔ (IsTrue (is_drain finish) → length rows.now ≡ length (sent log.now)) }
{
    match finish {
        Finish::Drain => rows.len() == sent_count(log),
        Finish::Abort => true,
    }
}

fn are_few(log: &[Event], rows: &[TakenRow]) -> bool
    ensures { IsTrue result ↔ (length rows.now ≤ length (sent log.now)) }
{
    rows.len() <= sent_count(log)
}

/// Whether the records were taken in order, with their verdicts, and the log ends as it has to.
pub fn is_taken_in_order(
    alloc: Global,
    size: u32,
    part: &Range,
    log: &[Event],
    rows: &[TakenRow],
    history: &[MemEvent],
    steps: &[Step],
    finish: Finish,
) -> Result<bool, AllocError>
    ensures { IfOk result (λ b.
        IsTrue b
        ↔ IsTakenInOrder
        (session_with size part.now log.now rows.now history.now steps.now finish)) }
{
    let numbered = are_numbered(alloc, log)?;
    let few = are_few(log, rows);
    let judged = are_judged(alloc, part, log, rows)?;
    let ends = ends_as_finished(log, finish);
    let taken = are_all_taken(log, rows, finish);
    let ids = all_lack_ids_rightly(log);
    Ok(numbered & few & judged & ends & taken & ids)
}

/// Whether each record taken is carried out, and no other has a step.
pub fn is_carried_out(
    alloc: Global,
    size: u32,
    part: &Range,
    log: &[Event],
    rows: &[TakenRow],
    history: &[MemEvent],
    steps: &[Step],
    finish: Finish,
) -> Result<bool, Oom>
    ensures { IfOk result (λ b.
        IsTrue b
        ↔ AreCarriedOut
        (session_with size part.now log.now rows.now history.now steps.now finish)) }
{
    let Ok(rs) = requests_sent(alloc, log) else {
        return Err(Oom);
    };
    let each = all_carried_out(alloc, part, &rs, rows, steps)?;
    let others = are_of_taken(rows, steps);
    Ok(each & others)
}

// Whether after a drain each answer was received as often as it is due.
fn are_exact(
    alloc: Global,
    log: &[Event],
    rows: &[TakenRow],
    finish: Finish,
) -> Result<bool, AllocError>
    ensures { IfOk result (λ b.
        IsTrue b ↔ (IsTrue (is_drain finish) → IsTrue (is_answered_exactly log.now rows.now))) }
{
    match finish {
        Finish::Drain => {
            let exact = exactly_due(alloc, log, rows)?;
            Ok(exact)
        }
        Finish::Abort => Ok(true),
    }
}

/// Whether answers were received as they are due.
pub fn is_answered(
    alloc: Global,
    size: u32,
    part: &Range,
    log: &[Event],
    rows: &[TakenRow],
    history: &[MemEvent],
    steps: &[Step],
    finish: Finish,
) -> Result<bool, AllocError>
    ensures { IfOk result (λ b.
        IsTrue b
        ↔ AreDueAnswers
        (session_with size part.now log.now rows.now history.now steps.now finish)) }
{
    let always = always_at_most_due(alloc, log, rows)?;
    let exact = are_exact(alloc, log, rows, finish)?;
    Ok(always & exact)
}
