use crate::session_end::SessionEnds;
use host_device::Device;
use host_frames::PoolSeat;
use host_io::Disk;
use host_turn::BookSeat;

/// Room for what the closing calls take and give: empty while the server runs.
#[derive(Drop)]
pub struct ClosingRoom<D: Disk> {
    pub device_seats: Vec<BookSeat<Device<D>>>,
    pub pool_seats: Vec<PoolSeat>,
    pub ends: SessionEnds,
}
