//! Whether a run played a script.
ghost use Rattle.std.specs.Prelude.{◌≡◌, ◌↔◌, ◌+◌, ◌<◌, ◌≤◌, ◌^◌, ◌==◌, [], IsTrue, IfOk, length};
ghost use Rattle.std.specs.Prelude.{map, nat_le, take};
ghost use Rattle.std.specs.List.{AllZip};
ghost use Rattle.host_model.specs.Groups.{owed};
ghost use Rattle.host_model.specs.Lists.{all_with_before};
ghost use Rattle.host_model.specs.Log.{received, requests};
ghost use Rattle.host_report.specs.Played.{IsPlayedReport, IsPlayedBy, before_call, is_waited_for};
ghost use Rattle.played_check.specs.Plans.{are_waited_from, played_ask, calls_by, is_waited_at};
ghost use Rattle.played_check.specs.Plans.{played_plan};

use crate::calls::{are_calls_asked, waits};
use crate::plan::{Ask, Plan};
use host_model::Event;
use host_record::Finish;
use host_report::{Report, SessionReport};
use record_check::{answers_received, owed_count, requests_sent};
use std::alloc::{AllocError, Global};

// How many events stand before the client's call of this number.
fn past_len(n: usize, log: &[Event]) -> usize
    ensures within { result ≤ length log.now }
    ensures past { take result log.now ≡ before_call n log.now }
{
    match log {
        [] => 0,
        [Event::Received { .. }, rest @ ..] => past_len(n, rest) + 1,
        [_, rest @ ..] => { if n == 0 { 0 } else { past_len(n - 1, rest) + 1 } }
    }
}

fn calls_of_one(ask: &Ask) -> usize
    ensures { result ≡ calls_by (played_ask ask.now) }
{
    if waits(ask) { 0 } else { 1 }
}

fn received_count(alloc: Global, log: &[Event]) -> Result<usize, AllocError>
    ensures { IfOk result (λ n. n ≡ length (received log.now)) }
{
    let answers = answers_received(alloc, log)?;
    Ok(answers.len())
}

fn owed_in(alloc: Global, log: &[Event]) -> Result<usize, AllocError>
    ensures { IfOk result (λ n. n ≡ length (owed (requests log.now))) }
{
    let rs = requests_sent(alloc, log)?;
    Ok(owed_count(&rs))
}

fn has_all(alloc: Global, past: &[Event]) -> Result<bool, AllocError>
    ensures { IfOk result
        (λ b. b ≡ (length (received past.now) == length (owed (requests past.now)))) }
{
    let received = received_count(alloc, past)?;
    let owed = owed_in(alloc, past)?;
    Ok(received == owed)
}

fn has_total(alloc: Global, past: &[Event], total: u64) -> Result<bool, AllocError>
    ensures { IfOk result (λ b. b ≡ nat_le total (length (received past.now))) }
{
    let received = received_count(alloc, past)?;
    Ok(total <= received as u64)
}

fn before(n: usize, log: &[Event]) -> &[Event]
    ensures { result.now ≡ before_call n log.now }
{
    &log[..past_len(n, log)]
}

// Whether as much was received before the client's call of this number as this asks for.
fn is_waited(alloc: Global, log: &[Event], n: usize, ask: &Ask) -> Result<bool, AllocError>
    ensures { IfOk result (λ b. b ≡ is_waited_at n log.now (played_ask ask.now)) }
{
    match ask {
        Ask::WaitAll => has_all(alloc, before(n, log)),
        Ask::WaitFor { total } => has_total(alloc, before(n, log), *total),
        _ => Ok(true),
    }
}

// Whether each wait was, where n calls stand before these.
fn are_waited(alloc: Global, log: &[Event], n: usize, asks: &[Ask]) -> Result<bool, AllocError>
    requires { n + length asks.now < 2 ^ 64 }
    ensures { IfOk result (λ b. b ≡ are_waited_from n log.now (map played_ask asks.now)) }
{
    match asks {
        [] => Ok(true),
        [ask, rest @ ..] => {
            let here = is_waited(alloc, log, n, ask)?;
            let later = are_waited(alloc, log, n + calls_of_one(ask), rest)?;
            Ok(here & later)
        }
    }
}

#[tactic(auto, using(crate::proofs::PlayedLemmas::all_waited_is))]
fn all_waited(alloc: Global, log: &[Event], asks: &[Ask]) -> Result<bool, AllocError>
    ensures { IfOk result
        (λ b. b ≡ all_with_before (is_waited_for log.now) (map played_ask asks.now)) }
{
    are_waited(alloc, log, 0, asks)
}

fn is_finish(a: Finish, b: Finish) -> bool
    ensures { IsTrue result ↔ (a ≡ b) }
{
    a == b
}

// Whether the session played the plan.
#[tactic(auto, using(crate::proofs::PlayedLemmas::played_is))]
fn is_played_by(alloc: Global, plan: &Plan, s: &SessionReport) -> Result<bool, AllocError>
    ensures { IfOk result (λ b. IsTrue b ↔ IsPlayedBy (played_plan plan.now) s.now) }
{
    let part = s.part == plan.part;
    let finish = is_finish(s.finish, plan.finish);
    let log = s.log.as_slice();
    let calls = are_calls_asked(alloc, plan.finish, &plan.asks, log)?;
    let waited = all_waited(alloc, log, &plan.asks)?;
    Ok(part & finish & calls & waited)
}

#[tactic(auto, using(crate::proofs::PlayedLemmas::no_plans))]
fn are_none(sessions: &[SessionReport]) -> bool
    ensures { IsTrue result ↔ AllZip IsPlayedBy [] sessions.now }
{
    sessions.is_empty()
}

fn are_played(alloc: Global, plans: &[Plan], sessions: &[SessionReport]) -> Result<bool, AllocError>
    ensures { IfOk result
        (λ b. IsTrue b ↔ AllZip IsPlayedBy (map played_plan plans.now) sessions.now) }
{
    match plans {
        [] => Ok(are_none(sessions)),
        [plan, plans @ ..] => match sessions {
            [] => Ok(false),
            [session, sessions @ ..] => {
                let here = is_played_by(alloc, plan, session)?;
                let later = are_played(alloc, plans, sessions)?;
                Ok(here & later)
            }
        },
    }
}

/// Whether the run played the script that asks this of its clients.
pub fn is_played(alloc: Global, plans: &[Plan], report: &Report) -> Result<bool, AllocError>
    ensures { IfOk result (λ b. IsTrue b ↔ IsPlayedReport (map played_plan plans.now) report.now) }
{
    let played = are_played(alloc, plans, report.sessions.as_slice())?;
    Ok(played)
}
