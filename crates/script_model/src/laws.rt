// Laws of the language, each the contract of a function that does nothing.
ghost use Rattle.script_model.specs.Laws.{GeneratedAgain, PrintedAgain, ReadAgain};

/// The printed text of a script that can be said means that script.
pub fn printed_again()
    ensures { PrintedAgain }
{}

/// The printed text of a script that a text means, means that script.
pub fn read_again()
    ensures { ReadAgain }
{}

/// The printed text of a generated script means that script.
pub fn generated_again()
    ensures { GeneratedAgain }
{}
