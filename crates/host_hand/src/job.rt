use crate::work::Work;
use host_group::CellSeat;
use host_rings::Envelope;

/// A record that a hand took, what is to be done for it, and the right to settle it where it is a
/// member of a group.
#[derive(Drop)]
pub(crate) struct Job {
    pub(crate) envelope: Envelope,
    pub(crate) work: Work,
    pub(crate) right: Option<CellSeat>,
}
