use host_group::CellSeat;
use host_record::Status;
use host_rings::Envelope;

/// A record that a hand took and has yet to end.
#[derive(Drop)]
pub struct Task {
    pub envelope: Envelope,
    /// How it is to end.
    pub outcome: Status,
    pub right: Option<CellSeat>,
}

/// What became of a call for the next record.
#[derive(Drop)]
pub enum Taken {
    ToDo(Task),
    /// A close that waits for pins was taken.
    Waits,
    /// The next record stays held until its group's instance has ended.
    Stalled,
    Nothing,
    Full,
    Over,
}
