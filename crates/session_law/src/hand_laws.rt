//! Laws over the definitions, each the contract of a function that does nothing.
ghost use Rattle.session_law.specs.KeptHands.{HandsKeepSessions};
ghost use Rattle.session_law.specs.Idle.{IdleVisitsTell};
ghost use Rattle.session_law.specs.Pages.{PagesComeBack};

/// What each hand keeps over what its own seats have seen holds of the whole histories.
pub fn hands_keep_sessions()
    ensures { HandsKeepSessions }
{}

/// All pages that a session's client attached were taken out of its buffers again, by its hands and
/// by the client.
pub fn pages_come_back()
    ensures { PagesComeBack }
{}

/// An idle visit excludes that a record was sent and nothing done, and an empty ring that a record
/// was heard of and not taken.
pub fn idle_visits_tell()
    ensures { IdleVisitsTell }
{}
