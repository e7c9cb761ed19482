//! Laws over the definitions, each the contract of a function that does nothing.
ghost use Rattle.play_law.specs.Kills.{FlushedWritesSurviveKills};
ghost use Rattle.play_law.specs.Runs.{PlayedRunsAreLaidOut, PlayedRunsAreSound};

/// The sessions of a run are on the ranges of one layout on its blocks, whether or not its disk
/// tells its content.
pub fn played_runs_are_laid_out()
    ensures { PlayedRunsAreLaidOut }
{}

/// A run whose sessions were played over the workers has a lawful report, and its disk outlives a
/// crash.
pub fn played_runs_are_sound()
    ensures { PlayedRunsAreSound }
{}

/// A kill inside a step of a device keeps what was flushed by the steps before it.
pub fn flushed_writes_survive_kills()
    ensures { FlushedWritesSurviveKills }
{}
