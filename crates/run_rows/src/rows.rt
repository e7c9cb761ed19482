//! Rows that are written out.
ghost use Rattle.run_rows.specs.BadScript.{BadScriptIsTold};
ghost use Rattle.run_rows.specs.Endings.{EndingsAreAsWritten};
ghost use Rattle.run_rows.specs.ForcedWrites.{ForcedWritesAreKept};
ghost use Rattle.run_rows.specs.Headline.{RunHasHeadline};
ghost use Rattle.run_rows.specs.Lines.{RefusalsHaveLines};
ghost use Rattle.run_rows.specs.LostSteps.{LostStepsAreRefused};
ghost use Rattle.run_rows.specs.NoTable.{NoTableIsTold};
ghost use Rattle.run_rows.specs.Reports.{StatusesComeWithReports};
ghost use Rattle.run_rows.specs.TableTexts.{TablesHaveTheirText};
ghost use Rattle.run_rows.specs.Words.{WordsAskForRuns};
ghost use Rattle.run_rows.specs.WrongEnds.{WrongEndsAreRefused};
ghost use Rattle.run_rows.specs.WrongRuns.{WrongRunsAreRefused};

/// What the words of a call ask for.
pub fn words_ask_for_runs()
    ensures { WordsAskForRuns }
{}

/// The lines of refusals.
pub fn refusals_have_lines()
    ensures { RefusalsHaveLines }
{}

/// Which statuses come with a report, and with a copy.
pub fn statuses_come_with_reports()
    ensures { StatusesComeWithReports }
{}

/// A run of one session has the headline, and leaves what a run leaves.
pub fn a_run_has_its_headline()
    ensures { RunHasHeadline }
{}

/// Runs that differ from it in one thing haven't, each by one field.
pub fn wrong_runs_are_refused()
    ensures { WrongRunsAreRefused }
{}

/// Runs in which each write that ended well is kept in the end lose a step of a write that failed,
/// or lose one in the middle.
pub fn lost_steps_are_refused()
    ensures { LostStepsAreRefused }
{}

/// A forced write is kept with no other flush, and isn't answered 0 without its own.
pub fn forced_writes_are_kept()
    ensures { ForcedWritesAreKept }
{}

/// What the run can't leave: another end, a part of its text, a closing flush that wasn't asked
/// for.
pub fn wrong_ends_are_refused()
    ensures { WrongEndsAreRefused }
{}

/// A run whose script has a bad line ends with status 4, that line and its cause, and with nothing
/// else.
pub fn a_bad_script_is_told()
    ensures { BadScriptIsTold }
{}

/// A run on an image without a table ends with status 3, and one on an image that has a table
/// doesn't.
pub fn a_missing_table_is_told()
    ensures { NoTableIsTold }
{}

/// The marks, names, ids and attributes of a table's text, and values that they aren't.
pub fn tables_have_their_text()
    ensures { TablesHaveTheirText }
{}

/// How sessions end, for which records an answer is owed, and that the answer to a group isn't that
/// to its last member.
pub fn endings_are_as_written()
    ensures { EndingsAreAsWritten }
{}
