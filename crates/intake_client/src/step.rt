use crate::taken::Taken;
use host_record::Status;

/// What a call for the next record came to.
#[derive(Clone, Copy, Debug, PartialEq, Eq)]
pub enum Step {
    Finished,
    AtLimit,
    NoRecord,
    Stalled,
    Waits,
    /// It was taken, and ends with this status.
    Taken(Status),
}

impl Step {
    /// What it came to for the hand.
    pub(crate) fn of(taken: &Taken) -> Step {
        match taken {
            Taken::Finished => Step::Finished,
            Taken::AtLimit => Step::AtLimit,
            Taken::NoRecord => Step::NoRecord,
            Taken::Stalled => Step::Stalled,
            Taken::Waits => Step::Waits,
            Taken::Flying(flight) => Step::Taken(flight.status),
        }
    }
}
