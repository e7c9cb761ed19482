//! What an intake's history has.
use host_model::Verdict;
use host_record::Status;
use host_rings::{Envelope, Slip};

/// A record's end: the outcome, and fronts that count in all that the record entered.
#[derive(Clone, Copy, Debug, PartialEq, Eq)]
pub struct RecordEnd {
    pub outcome: Status,
    pub device_front: u64,
    pub memory_front: u64,
}

/// How far a session has come.
#[derive(Clone, Copy, Debug, PartialEq, Eq)]
pub enum Phase {
    Running,
    /// The client sends no more. All records that it sent will be taken, and answered.
    Draining,
    /// No more records are taken, and no answer is handed on.
    Aborted,
    Closed,
}

/// One event of a session's intake, with the hand that made it.
#[derive(Clone, Copy, Drop)]
pub enum IntakeEntry {
    /// A record was taken. Its verdict was judged on the first `seen` entries of the buffer
    /// history.
    Took {
        hand: u32,
        envelope: Envelope,
        verdict: Verdict,
        /// Whether it is a close that waits for pins.
        waits: bool,
        seen: u64,
    },
    /// A record ended. The answer that this made due, if it made one, is kept where it couldn't be
    /// handed on.
    Landed {
        hand: u32,
        index: u32,
        end: RecordEnd,
        answer: Option<Slip>,
        kept: bool,
    },
    /// The oldest kept answer was handed on.
    Passed {
        hand: u32,
    },
    /// The client turned the session to another phase.
    Turned {
        hand: u32,
        phase: Phase,
    },
}
