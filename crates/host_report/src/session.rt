use host_block::{Range, ReservedList};
use host_model::{Events, MemEntries, TakenRows};
use host_record::Finish;

/// One session as it went.
#[derive(Drop)]
pub struct SessionReport {
    /// Counted from 1.
    pub number: u32,
    /// The number of its partition.
    pub part: u32,
    /// The partition's blocks.
    pub range: Range,
    pub log: Events,
    pub taken: TakenRows,
    pub memory: MemEntries,
    pub finish: Finish,
}

/// The sessions of a run, by their numbers.
pub type SessionReports = ReservedList<SessionReport>;
