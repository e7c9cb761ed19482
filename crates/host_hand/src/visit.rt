/// What a hand found to do at a session.
#[derive(Clone, Copy, Debug, PartialEq, Eq, Drop)]
pub enum Visit {
    /// A record was taken, or a kept answer was handed on.
    Did,
    /// No record could be taken: the session is over, or at its limit; each one that was told to be
    /// sent is taken; or the next one is stalled.
    Idle,
    /// The session is closed.
    Closed,
}
