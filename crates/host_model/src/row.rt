//! The records that were taken.

use crate::verdict::Verdict;
use host_block::ReservedList;
use host_record::Status;

/// A record that was taken, and how it ended.
#[derive(Clone, Copy, Debug, PartialEq, Eq)]
pub struct TakenRow {
    pub verdict: Verdict,
    /// The status of a refused record, or how the steps of an accepted one went.
    pub outcome: Status,
}

/// The records taken, by their index.
pub type TakenRows = ReservedList<TakenRow>;
