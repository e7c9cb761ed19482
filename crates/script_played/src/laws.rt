// Laws over the definitions, each the contract of a function that does nothing.
ghost use Rattle.script_played.specs.Laws.{HistoriesFit, OwedAsWritten};

/// Before each line's call the records of the log owe as many answers as the lines before it.
pub fn owed_as_written()
    ensures { OwedAsWritten }
{}

/// The histories of a lawful run fit into the room that its script asks for.
pub fn histories_fit()
    ensures { HistoriesFit }
{}
