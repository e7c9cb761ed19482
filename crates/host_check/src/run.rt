//! Whether the sessions of a run are lawful.
ghost use Rattle.std.specs.Prelude.{◌≡◌, ◌↔◌, ◌<◌, ◌+◌, ◌^◌, IsTrue, length, map, IfOk};
ghost use Rattle.std.specs.List.{AllByRecursion, range_with_len};
ghost use Rattle.host_model.specs.LawfulSession.{IsLawfulSession};
ghost use Rattle.record_check.specs.Counting.{counts_from};
ghost use Rattle.host_report.specs.Lawful.{session_of};
ghost use Rattle.host_check.specs.Parts.{TellsSession};

use crate::parts::SessionParts;
use crate::session::parts_of_lists;
use buffer_check::events_of;
use host_block::Oom;
use host_report::{Report, SessionReport};
use record_check::session_steps;
use std::alloc::Global;

fn numbers_count_from(sessions: &[SessionReport], n: u64) -> bool
    requires { n + length sessions.now < 2 ^ 64 }
    ensures { result ≡ counts_from n (map (λ s. s.number) sessions.now) }
{
    match sessions {
        [] => true,
        [session, rest @ ..] => session.number as u64 == n && numbers_count_from(rest, n + 1),
    }
}

/// Whether the sessions are numbered from 1.
#[tactic(auto, using(crate::proofs::RunLemmas::numbers_are))]
pub fn are_numbered(sessions: &[SessionReport]) -> bool
    ensures { IsTrue result
        ↔ (map (λ s. s.number) sessions.now ≡ range_with_len 1 (length sessions.now)) }
{
    numbers_count_from(sessions, 1)
}

/// Which parts of this session of the report are as they have to be.
pub fn session_parts(alloc: Global, report: &Report, s: &SessionReport) -> Result<SessionParts, Oom>
    ensures { IfOk result (TellsSession (session_of report.now s.now)) }
{
    let history = events_of(alloc, s.memory.as_slice())?;
    let steps = session_steps(alloc, report.steps.as_slice(), s.number)?;
    let size = report.size.bytes();
    let log = s.log.as_slice();
    let rows = s.taken.as_slice();
    let parts = parts_of_lists(alloc, size, &s.range, log, rows, &history, &steps, s.finish)?;
    Ok(parts)
}

/// Whether this session of the report is lawful.
#[tactic(auto, using(crate::proofs::SessionLemmas::session_is))]
pub fn is_lawful_in(alloc: Global, report: &Report, s: &SessionReport) -> Result<bool, Oom>
    ensures { IfOk result (λ b. IsTrue b ↔ IsLawfulSession (session_of report.now s.now)) }
{
    let parts = session_parts(alloc, report, s)?;
    Ok(parts.are_whole())
}

/// Whether all of them are.
pub fn are_lawful(alloc: Global, report: &Report, sessions: &[SessionReport]) -> Result<bool, Oom>
    ensures { IfOk result (λ b.
        IsTrue b ↔ AllByRecursion (λ s. IsLawfulSession (session_of report.now s)) sessions.now) }
{
    match sessions {
        [] => Ok(true),
        [session, rest @ ..] => {
            let here = is_lawful_in(alloc, report, session)?;
            let later = are_lawful(alloc, report, rest)?;
            Ok(here & later)
        }
    }
}
