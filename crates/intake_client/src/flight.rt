use host_group::CellSeat;
use host_record::Status;
use host_rings::Envelope;

/// A record that was taken and has not ended: the status with which it ends, and the right to
/// settle it where it is a member of a group.
#[derive(Drop)]
pub struct Flight {
    pub envelope: Envelope,
    pub status: Status,
    pub right: Option<CellSeat>,
}
