//! Rows that are written out.
ghost use Rattle.run_rows.specs.Crash.{CrashKeepsFlushed};
ghost use Rattle.run_rows.specs.PlayLines.{PlaysLines};
ghost use Rattle.run_rows.specs.Missing.{FlushedPartsExclude};
ghost use Rattle.run_rows.specs.Opened.{OpensSessions};

/// Two sessions are opened with room for what their lines can make.
pub fn sessions_are_opened()
    ensures { OpensSessions }
{}

/// A client has played its lines by one log, and hasn't by logs that differ from it in one thing.
pub fn a_client_plays_its_lines()
    ensures { PlaysLines }
{}

/// A write is answered, then flushed, then written over: what a crash may leave, and what it may
/// not.
pub fn a_crash_keeps_what_was_flushed()
    ensures { CrashKeepsFlushed }
{}

/// What was had, flushed, written and put by these steps, and what wasn't: no part of the clause
/// holds of everything.
pub fn each_part_of_what_was_flushed_excludes()
    ensures { FlushedPartsExclude }
{}
