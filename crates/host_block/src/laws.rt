// Laws over the definitions, each the contract of a function that does nothing.
ghost use Rattle.host_block.specs.Laws.{WrittenReads, SyncedReads, SyncedIsDurable, PickedIsCrash};
ghost use Rattle.host_block.specs.Laws.{CallKeeps, RunKeeps, FlushKeeps, ChangeKeeps, CrashOfKept};
ghost use Rattle.host_block.specs.Laws.{CrashInsideCall};

/// After a write that succeeds a read of its block gives its bytes, and one of any other block what
/// it gave before.
pub fn written_reads()
    ensures { WrittenReads }
{}

/// A sync, however it ends, changes no read.
pub fn synced_reads()
    ensures { SyncedReads }
{}

/// After a sync that succeeds the durable blocks are what reads gave, and nothing is pending.
pub fn synced_is_durable()
    ensures { SyncedIsDurable }
{}

/// What picks choose is left by some crash.
pub fn picked_is_crash()
    ensures { PickedIsCrash }
{}

/// A read, a sync, or a write of the content after the whole history keeps the history, however it
/// ends.
pub fn call_keeps()
    ensures { CallKeeps }
{}

/// Each state along a run of such calls keeps the history.
pub fn run_keeps()
    ensures { RunKeeps }
{}

/// Where reads give the content after the whole history, a sync that succeeds keeps it with a flush
/// more.
pub fn flush_keeps()
    ensures { FlushKeeps }
{}

/// A state that keeps the history also keeps it with any change more that is no flush, or a failed
/// one.
pub fn change_keeps()
    ensures { ChangeKeeps }
{}

/// What a crash of a state that keeps the history leaves is a crash image of the history.
pub fn crash_of_kept()
    ensures { CrashOfKept }
{}

/// What a crash inside a faithful call of such a state leaves is a crash image of the history.
pub fn crash_inside_call()
    ensures { CrashInsideCall }
{}
