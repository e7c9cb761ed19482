//! Laws over the definitions, each the contract of a function that does nothing.
ghost use Rattle.host_model.specs.Laws.{AnswersComeOnce, FirstCheckDecides, OrderIsKept};
ghost use Rattle.host_model.specs.Laws.{StepsStayInside};

/// A record is refused with the status of the first check that fails, and accepted where none does.
pub fn first_check_decides()
    ensures { FirstCheckDecides }
{}

/// Each step of a lawful session but a flush lies inside the session's partition.
pub fn steps_stay_inside()
    ensures { StepsStayInside }
{}

/// After a drain each answer was received as often as it is due, one for each lone record and each
/// closed group.
pub fn answers_come_once()
    ensures { AnswersComeOnce }
{}

/// Where the answer to a record was had before another was sent, what the first did stands before
/// what the other did.
pub fn order_is_kept()
    ensures { OrderIsKept }
{}
