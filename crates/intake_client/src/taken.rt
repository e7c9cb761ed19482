use crate::flight::Flight;

/// What became of the next record, as a hand goes on with it.
#[derive(Drop)]
pub enum Taken {
    Finished,
    AtLimit,
    NoRecord,
    Stalled,
    /// A close that waits for pins.
    Waits,
    /// It was refused, or admitted.
    Flying(Flight),
}
