use crossbeam_utils::CachePadded;
use host_session::{ClientEnd, SessionHand, SessionShared, SessionSpec};
use std::snapshot::Snapshot;

/// One session of a server: what all share of it, on cache lines of its own.
#[derive(Drop)]
pub struct Session {
    pub spec: SessionSpec,
    pub shared: CachePadded<SessionShared>,
    /// Its client's end as it was opened.
    pub opened: Snapshot<ClientEnd>,
    /// What its hands have of it, by their numbers, before it is dealt out and after it came back.
    /// In between it is their room.
    pub hands: Vec<SessionHand>,
}
