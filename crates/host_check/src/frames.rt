//! Whether frames ran short only where they had to.
ghost use Rattle.std.specs.Prelude.{◌≡◌, ◌+◌, ◌≤◌, min, nat_lt, sum_by};
ghost use Rattle.std.specs.List.{list_any};
ghost use Rattle.host_model.specs.Lists.{implies};
ghost use Rattle.host_report.specs.Lawful.{is_short_of_frames, pages_asked, pages_asked_by};
ghost use Rattle.host_report.specs.Lawful.{ran_short};

use host_model::{AttachError, Event};
use host_report::SessionReport;

fn pages_of(event: &Event) -> u32
    ensures { result ≡ pages_asked_by event.now }
{
    match event {
        Event::Attached { pages, .. } => *pages,
        Event::NotAttached { pages, .. } => *pages,
        _ => 0,
    }
}

// The sum, or 4,097 where it is more.
fn sum(count: u32, pages: u32) -> u32
    requires { count ≤ 4097 }
    ensures { result ≡ min 4097 (count + pages) }
{
    if pages > 4097 - count {
        4097
    } else {
        count + pages
    }
}

fn pages_of_log(log: &[Event], count: u32) -> u32
    requires { count ≤ 4097 }
    ensures { result ≡ min 4097 (count + sum_by pages_asked_by log.now) }
{
    match log {
        [] => count,
        [event, rest @ ..] => pages_of_log(rest, sum(count, pages_of(event))),
    }
}

fn pages_of_run(sessions: &[SessionReport], count: u32) -> u32
    requires { count ≤ 4097 }
    ensures { result ≡ min 4097 (count + pages_asked sessions.now) }
{
    match sessions {
        [] => count,
        [session, rest @ ..] => pages_of_run(rest, pages_of_log(session.log.as_slice(), count)),
    }
}

fn is_short(event: &Event) -> bool
    ensures { result ≡ is_short_of_frames event.now }
{
    match event {
        Event::NotAttached { cause, .. } => match cause {
            AttachError::NoFrames => true,
            _ => false,
        },
        _ => false,
    }
}

fn log_ran_short(log: &[Event]) -> bool
    ensures { result ≡ list_any is_short_of_frames log.now }
{
    log.iter().any(is_short)
}

fn session_ran_short(session: &SessionReport) -> bool
    ensures { result ≡ list_any is_short_of_frames session.now.log.items }
{
    log_ran_short(session.log.as_slice())
}

fn any_ran_short(sessions: &[SessionReport]) -> bool
    ensures { result ≡ ran_short sessions.now }
{
    sessions.iter().any(session_ran_short)
}

fn are_too_many(sessions: &[SessionReport]) -> bool
    ensures { result ≡ nat_lt 4096 (pages_asked sessions.now) }
{
    4096 < pages_of_run(sessions, 0)
}

/// Whether frames ran short only where all attaches together asked for more than 4,096 pages.
pub fn ran_short_rightly(sessions: &[SessionReport]) -> bool
    ensures { result ≡ implies (ran_short sessions.now) (nat_lt 4096 (pages_asked sessions.now)) }
{
    !any_ran_short(sessions) || are_too_many(sessions)
}
