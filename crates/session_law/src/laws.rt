//! Laws over the definitions, each the contract of a function that does nothing.
ghost use Rattle.session_law.specs.Answering.{DueAnswers};
ghost use Rattle.session_law.specs.Buffers.{BuffersTold};
ghost use Rattle.session_law.specs.Draining.{DrainsComeLast};
ghost use Rattle.session_law.specs.Fronts.{FrontsRise};
ghost use Rattle.session_law.specs.Lawful.{SessionsAreLawful};
ghost use Rattle.session_law.specs.Ordering.{OrderKept};
ghost use Rattle.session_law.specs.Taking.{TakenInOrder};
ghost use Rattle.session_law.specs.Using.{UsedRightly};

/// What a client end knew as it sent a record: all that the slips received before told, and its own
/// entries.
pub fn fronts_rise()
    ensures { FrontsRise }
{}

/// The records of a session were taken in the order sent, with the verdicts that its client's log
/// gives them.
pub fn taken_in_order()
    ensures { TakenInOrder }
{}

/// The buffers' history has the client's entries as its log tells them, its pages, and each
/// buffer's one release.
pub fn buffers_told()
    ensures { BuffersTold }
{}

/// What a session's client received is what it was due, each answer once at most; after a drain
/// each just once.
pub fn due_answers()
    ensures { DueAnswers }
{}

/// What was answered before a record was sent stands before what the record does.
pub fn order_kept()
    ensures { OrderKept }
{}

/// A client's fill or show was done, or not, as its buffer stood.
pub fn used_rightly()
    ensures { UsedRightly }
{}

/// A session is lawful, where its hands kept what they keep.
pub fn sessions_are_lawful()
    ensures { SessionsAreLawful }
{}

/// A drained log ends with its drain, where only answers may follow it.
pub fn drains_come_last()
    ensures { DrainsComeLast }
{}
