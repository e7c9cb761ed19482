//! Whether the history of a session's buffers is what it has to be.
ghost use Rattle.std.specs.Prelude.{◌≡◌, ◌↔◌, ◌<◌, ◌+◌, ◌^◌, ℕ, nat_eq, IsTrue, filter, length};
ghost use Rattle.std.specs.Prelude.{IfOk};
ghost use Rattle.std.specs.List.{list_all, range_with_len};
ghost use Rattle.host_model.specs.Buffers.{IsBufferHistory};
ghost use Rattle.host_model.specs.ClientEntries.{is_client, told};
ghost use Rattle.host_model.specs.Lists.{all_with_before, same_counts};
ghost use Rattle.host_model.specs.Log.{given, requests, sent};
ghost use Rattle.host_model.specs.RecordEntries.{names_taken};
ghost use Rattle.host_model.specs.Releases.{released};
ghost use Rattle.host_model.specs.Verdict.{verdicts};
ghost use Rattle.record_check.specs.Counting.{counts_from};
ghost use Rattle.record_check.specs.Session.{session_with};
ghost use Rattle.buffer_check.specs.Entries.{HasEntriesBy};
ghost use Rattle.buffer_check.specs.Owners.{is_used_by};

use crate::entries::all_have_entries;
use crate::history::client_entries;
use crate::pages::{lifts_are_right, shows_are_right};
use crate::releases::{
    all_of_taken, all_pin_rightly, are_as_often, ids_given, ids_released, none_after_release,
};
use crate::told::are_told;
use crate::used::all_used_rightly;
use host_block::{Oom, Range};
use host_model::{Event, MemEvent, Step, TakenRow};
use host_record::Finish;
use record_check::{requests_sent, sent_count, verdicts_of};
use std::alloc::{AllocError, Global};

// Whether the client's entries are those that its log tells.
fn entries_are_told(alloc: Global, log: &[Event], history: &[MemEvent]) -> Result<bool, Oom>
    ensures { IfOk result (λ b. IsTrue b ↔ (filter is_client history.now ≡ told log.now)) }
{
    let entries = client_entries(alloc, history)?;
    Ok(are_told(&entries, log))
}

fn ids_count_from(ids: &[u16], n: u64) -> bool
    requires { n + length ids.now < 2 ^ 64 }
    ensures { result ≡ counts_from n ids.now }
{
    match ids {
        [] => true,
        [id, rest @ ..] => *id as u64 == n && ids_count_from(rest, n + 1),
    }
}

// Whether ids are given in order from 1.
#[tactic(auto, using(record_check::proofs::TakingLemmas::counts_is))]
fn ids_are_in_order(alloc: Global, log: &[Event]) -> Result<bool, AllocError>
    ensures { IfOk result
        (λ b. IsTrue b ↔ (given log.now ≡ range_with_len 1 (length (given log.now)))) }
{
    let ids = ids_given(alloc, log)?;
    Ok(ids_count_from(&ids, 1))
}

// Whether every id that was given was released once.
fn are_released_once(alloc: Global, log: &[Event], history: &[MemEvent]) -> Result<bool, AllocError>
    ensures { IfOk result (λ b. b ≡ same_counts nat_eq (released history.now) (given log.now)) }
{
    let given = ids_given(alloc, log)?;
    let released = ids_released(alloc, history)?;
    Ok(are_as_often(&released, &given))
}

// Whether fills and shows were done, or not, as their buffers stood.
fn are_used_rightly(
    alloc: Global,
    part: &Range,
    log: &[Event],
    rows: &[TakenRow],
    history: &[MemEvent],
) -> Result<bool, Oom>
    ensures { IfOk result (λ b.
        b
        ≡ all_with_before (is_used_by (requests log.now)
        (verdicts log.now part.now (length (sent log.now))) (length rows.now) history.now)
        log.now) }
{
    let Ok(rs) = requests_sent(alloc, log) else {
        return Err(Oom);
    };
    let Ok(verdicts) = verdicts_of(alloc, log, &rs, part, sent_count(log)) else {
        return Err(Oom);
    };
    let used = all_used_rightly(alloc, &rs, &verdicts, rows.len(), history, log)?;
    Ok(used)
}

fn have_entries(
    alloc: Global,
    log: &[Event],
    rows: &[TakenRow],
    history: &[MemEvent],
    steps: &[Step],
) -> Result<bool, Oom>
    ensures { IfOk result (λ b.
        IsTrue b
        ↔ ((i : ℕ) → i < length rows.now
        → HasEntriesBy (requests log.now) rows.now steps.now history.now i)) }
{
    let Ok(rs) = requests_sent(alloc, log) else {
        return Err(Oom);
    };
    let each = all_have_entries(alloc, &rs, rows, steps, history)?;
    Ok(each)
}

fn are_of_rows(history: &[MemEvent], rows: &[TakenRow]) -> bool
    ensures { result ≡ list_all (names_taken (length rows.now)) history.now }
{
    all_of_taken(history, rows.len())
}

/// Whether the buffers' history is what it has to be.
pub fn is_buffer_history(
    alloc: Global,
    size: u32,
    part: &Range,
    log: &[Event],
    rows: &[TakenRow],
    history: &[MemEvent],
    steps: &[Step],
    finish: Finish,
) -> Result<bool, Oom>
    ensures { IfOk result (λ b.
        IsTrue b
        ↔ IsBufferHistory
        (session_with size part.now log.now rows.now history.now steps.now finish)) }
{
    let told = entries_are_told(alloc, log, history)?;
    let Ok(ordered) = ids_are_in_order(alloc, log) else {
        return Err(Oom);
    };
    let shown = shows_are_right(alloc, size, log, history)?;
    let lifted = lifts_are_right(alloc, size, history)?;
    let entries = have_entries(alloc, log, rows, history, steps)?;
    let taken = are_of_rows(history, rows);
    let Ok(once) = are_released_once(alloc, log, history) else {
        return Err(Oom);
    };
    let last = none_after_release(history);
    let pinned = all_pin_rightly(history);
    let used = are_used_rightly(alloc, part, log, rows, history)?;
    Ok(told & ordered & shown & lifted & entries & taken & once & last & pinned & used)
}
