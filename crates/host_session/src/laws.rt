//! Laws over the definitions, each the contract of a function that does nothing.
ghost use Rattle.host_session.specs.Counting.{CountingHoldsBefore, CountingTells};

/// Where each answer received is that of a record of its own that is due one, counting tells whose
/// answers were received.
pub fn counting_tells()
    ensures { CountingTells }
{}

/// Where each answer was received after its record was sent, the same holds after each event of the
/// log.
pub fn counting_holds_before()
    ensures { CountingHoldsBefore }
{}
