use host_frames::Pages;
use host_group::CellSeat;
use host_record::Status;
use host_rings::Envelope;

/// What became of a call for the next record.
///
/// The right to settle a record is there where it is a member of a group; a close that waits for
/// pins keeps its right.
#[derive(Drop)]
pub enum Admission {
    /// The session was aborted or is closed.
    Finished,
    /// As many records are in flight, and answers kept, as there may be.
    AtLimit,
    /// None is held, and the ring was found empty.
    NoRecord,
    /// It is a member of a group of whose number a closed instance hasn't ended.
    Stalled,
    Refused {
        envelope: Envelope,
        status: Status,
        right: Option<CellSeat>,
    },
    /// Its buffer is pinned, or closed. The pages are those of a buffer that it closed and that
    /// nothing pins.
    Admitted {
        envelope: Envelope,
        pages: Option<Pages>,
        right: Option<CellSeat>,
    },
}
