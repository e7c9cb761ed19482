use host_group::CellSeat;
use host_rings::Envelope;

/// A close that waits for the pins of its buffer, with the right to settle it where it is a member
/// of a group.
#[derive(Drop)]
pub struct Waiting {
    pub envelope: Envelope,
    pub right: Option<CellSeat>,
}
