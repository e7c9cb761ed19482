//! Laws over the definitions, each the contract of a function that does nothing.
ghost use Rattle.crash_law.specs.Ended.{EndedWritesSurvive};
ghost use Rattle.crash_law.specs.Forced.{ForcedWritesSurvive, OwnFlushesKeep};
ghost use Rattle.crash_law.specs.Survival.{FlushedWritesSurvive};

/// At every moment of a lawful run, a crash keeps each step of a write or trim that was answered
/// before a flush was sent, once the flush is done.
pub fn flushed_writes_survive()
    ensures { FlushedWritesSurvive }
{}

/// So a write or trim that ended well, and was answered before a flush was sent that ended well
/// too, was made and is kept in each of its blocks.
pub fn ended_writes_survive()
    ensures { EndedWritesSurvive }
{}

/// At every moment of a lawful run, a crash keeps each block that a record wrote before a flush of
/// its own, once that flush is done.
pub fn own_flushes_keep()
    ensures { OwnFlushesKeep }
{}

/// So each block of a forced write that was answered 0 outlives a crash after the run, with the
/// write's bytes or those of a later step.
pub fn forced_writes_survive()
    ensures { ForcedWritesSurvive }
{}
