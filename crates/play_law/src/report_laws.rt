//! Laws over the definitions, each the contract of a function that does nothing.
ghost use Rattle.play_law.specs.Reports.{GatheredReportsAreLawful};
ghost use Rattle.play_law.specs.LawfulRuns.{GatheredRunsAreLawful};
ghost use Rattle.play_law.specs.Sessions.{GatheredSessionsAreLawful};

/// Each session of a gathered report is lawful.
pub fn gathered_sessions_are_lawful()
    ensures { GatheredSessionsAreLawful }
{}

/// Of a gathered report all is lawful but what its image says, on whatever disk its sessions were
/// played.
pub fn gathered_runs_are_lawful()
    ensures { GatheredRunsAreLawful }
{}

/// A gathered report is lawful for an image that its table and its device's history are of.
pub fn gathered_reports_are_lawful()
    ensures { GatheredReportsAreLawful }
{}
