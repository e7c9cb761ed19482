//! Rows that are written out.
ghost use Rattle.model_rows.specs.Cache.{CacheIsAsWritten};
ghost use Rattle.model_rows.specs.Clients.{ClientsAreAsWritten};
ghost use Rattle.model_rows.specs.Disk.{DisksAreAsWritten};
ghost use Rattle.model_rows.specs.Frames.{FramesAreAsWritten};
ghost use Rattle.model_rows.specs.Groups.{GroupsAreAsWritten};
ghost use Rattle.model_rows.specs.Intakes.{IntakesAreAsWritten};
ghost use Rattle.model_rows.specs.LawfulSessions.{SessionsAreLawful};
ghost use Rattle.model_rows.specs.MemoryDisks.{MemoryDisksAreAsWritten};
ghost use Rattle.model_rows.specs.Partitions.{PartitionsAreServed};
ghost use Rattle.model_rows.specs.RealisticScript.{RealisticScriptIsPlayed};
ghost use Rattle.model_rows.specs.Records.{RecordsAreAsWritten};
ghost use Rattle.model_rows.specs.ReportFields.{EachReportFieldIsNeeded};
ghost use Rattle.model_rows.specs.ReportTexts.{ReportsAreAsWritten};
ghost use Rattle.model_rows.specs.Rings.{RingsAreAsWritten};
ghost use Rattle.model_rows.specs.Scripts.{TextsAreScripts};
ghost use Rattle.model_rows.specs.SessionFields.{EachSessionFieldIsNeeded};
ghost use Rattle.model_rows.specs.Table.{TableIsRead};
ghost use Rattle.model_rows.specs.Turns.{TurnsAreAsWritten};
ghost use Rattle.model_rows.specs.Verdicts.{VerdictsAreAsWritten};
ghost use Rattle.model_rows.specs.Words.{WordsAreCommands};
ghost use Rattle.model_rows.specs.WordsOfTexts.{BytesArePrinted};
ghost use Rattle.model_rows.specs.WrongReports.{WrongReportsAreRefused};
ghost use Rattle.model_rows.specs.WrongSessions.{WrongSessionsAreRefused};
ghost use Rattle.model_rows.specs.WrongTables.{WrongTablesAreRefused};

/// Check sums, and the table of a small image: four blocks, one entry of 128 bytes, and a primary
/// header alone.
pub fn a_table_is_read()
    ensures { TableIsRead }
{}

/// The course of a client: it attaches a buffer, sends a read, receives its answer, fills the
/// buffer, and is shown none of another.
pub fn clients_are_as_written()
    ensures { ClientsAreAsWritten }
{}

/// The disk model, on an image of two blocks of two bytes.
pub fn disks_are_as_written()
    ensures { DisksAreAsWritten }
{}

/// A pool of 70 frames, so of two words.
pub fn frames_are_as_written()
    ensures { FramesAreAsWritten }
{}

/// An instance of three members, of which the second and the third fail, and the third settled
/// first.
pub fn groups_are_as_written()
    ensures { GroupsAreAsWritten }
{}

/// The history of an intake: a read that pins its buffer, a close of a buffer that isn't there,
/// and a close that waits for the read.
pub fn intakes_are_as_written()
    ensures { IntakesAreAsWritten }
{}

/// Bytes cut into blocks of two, counts of faults, and lists of calls that fail.
pub fn memory_disks_are_as_written()
    ensures { MemoryDisksAreAsWritten }
{}

/// A table of three entries: one that is served, and two that share block 70.
pub fn partitions_are_served()
    ensures { PartitionsAreServed }
{}

/// The bytes of a request and of a response.
pub fn records_are_as_written()
    ensures { RecordsAreAsWritten }
{}

/// The run of the realistic session is lawful, and has this text; and lines that a text has with
/// its steps.
pub fn reports_are_as_written()
    ensures { ReportsAreAsWritten }
{}

/// What was pushed to a ring, taken from it and left in it.
pub fn rings_are_as_written()
    ensures { RingsAreAsWritten }
{}

/// Sessions that are lawful.
pub fn sessions_are_lawful()
    ensures { SessionsAreLawful }
{}

/// Small texts and what they mean, and a script that is made.
pub fn texts_are_scripts()
    ensures { TextsAreScripts }
{}

/// What a cache holds, and the calls that it makes.
pub fn the_cache_is_as_written()
    ensures { CacheIsAsWritten }
{}

/// The script of the realistic session, and its run.
pub fn the_realistic_script_is_played()
    ensures { RealisticScriptIsPlayed }
{}

/// The history of a lock, and its seats: entries are a maker's number with what it said.
pub fn turns_are_as_written()
    ensures { TurnsAreAsWritten }
{}

/// What words mean.
pub fn words_are_commands()
    ensures { WordsAreCommands }
{}

/// Runs that differ in one thing from the realistic one, each refused by the part that it breaks.
pub fn wrong_reports_are_refused()
    ensures { WrongReportsAreRefused }
{}

/// Sessions that differ in one thing from lawful ones, each refused by the part that it breaks.
pub fn wrong_sessions_are_refused()
    ensures { WrongSessionsAreRefused }
{}

/// For each field of a lawful session a session that breaks it.
pub fn each_session_field_is_needed()
    ensures { EachSessionFieldIsNeeded }
{}

/// Verdicts on requests, by each check and by the first of two.
pub fn verdicts_are_as_written()
    ensures { VerdictsAreAsWritten }
{}

/// For each field of a lawful report, and of one that played a script, a report that breaks it.
pub fn each_report_field_is_needed()
    ensures { EachReportFieldIsNeeded }
{}

/// Headers and arrays that differ in one thing from right ones; and the backup that is taken.
pub fn wrong_tables_are_refused()
    ensures { WrongTablesAreRefused }
{}

/// Bytes and blocks as a text has them.
pub fn bytes_are_printed()
    ensures { BytesArePrinted }
{}
