//! The hands.
ghost use Rattle.std.specs.Prelude.{◌≡◌};

use crate::room::ClosingRoom;
use host_device::Device;
use host_frames::PoolSeat;
use host_io::Disk;
use host_session::SessionHand;
use host_turn::BookSeat;

/// One that works at a server: its seats at the device and at the pool, and what it has of each
/// session, all of its number.
#[derive(Drop)]
pub struct Hand<D: Disk> {
    pub(crate) number: u32,
    pub(crate) device_seat: BookSeat<Device<D>>,
    pub(crate) pool_seat: PoolSeat,
    pub(crate) sessions: Vec<SessionHand>,
    // The place of the session at which its next turn begins.
    pub(crate) next: usize,
    // The first hand keeps the room for what the closing calls take. A server that threads share
    // can't: it would share seats at the device.
    pub(crate) room: Option<ClosingRoom<D>>,
}

impl<D: Disk> Hand<D> {
    ghost use Rattle.std.specs.Borrow.{Lends, sem};
    ghost use Rattle.host_frames.specs.contracts.seat.PoolSeat.{the_row as seat_row};
    ghost use Rattle.host_worker.specs.contracts.hand.Hand.{the_row};
    ghost use Rattle.host_worker.specs.Hands.{pool_seat_of, with_pool_seat};

    /// Its seat at the pool.
    pub fn pool_seat(&mut self) -> &mut PoolSeat
        ensures* writes_back { sem 𝓛
            (Lends (the_row D.row D.Disk) seat_row self.entry result (with_pool_seat self.old)) }
        ensures seat { result.now ≡ pool_seat_of self.old }
    {
        &mut self.pool_seat
    }
}
