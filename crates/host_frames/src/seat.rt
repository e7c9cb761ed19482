//! The seats at a pool.
ghost use Rattle.host_frames.specs.Moments.{IsIdle};

use crate::view::View;
use atomic_table::Seat;

/// The right to claim frames of one pool. It has no bytes, and may go to another thread.
#[derive(Drop)]
pub struct PoolSeat {
    pub(crate) seat: Seat<Option<Vec<u8>>, View>,
    ghost idle: { IsIdle seat.me },
}
