//! Laws over the definitions, each the contract of a function that does nothing.
ghost use Rattle.host_intake.specs.Laws.{EndsAreAnswers, OwnRecordsFly, VerdictsAreDefined};

/// While no buffer was released but by a close, the verdicts on the records taken are those of the
/// definition.
pub fn verdicts_are_defined()
    ensures { VerdictsAreDefined }
{}

/// The end of a group's instance, as the cells tell it, is the answer of the record that closed it.
pub fn ends_are_answers()
    ensures { EndsAreAnswers }
{}

/// A record that a hand took, that doesn't wait for pins, and whose end the hand itself has not
/// told is in flight.
pub fn own_records_fly()
    ensures { OwnRecordsFly }
{}
