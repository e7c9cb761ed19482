//! A server is started.
ghost use Rattle.std.specs.Prelude.{◌≡◌, ◌<◌, ◌≤◌, [], ◌∷◌, ◌++◌, MatchResult, None, vec_len};
ghost use Rattle.std.specs.Prelude.{vec_capacity};
ghost use Rattle.host_device.specs.Seen.{shape_of, steps_of};
ghost use Rattle.host_worker.specs.Shares.{specs_of};
ghost use Rattle.host_worker.specs.Starts.{AreSpecs, IsPrepared, IsStarted};

use crate::hand::Hand;
use crate::prepare::{Opened, Prepared, prepare};
use crate::room::ClosingRoom;
use crate::server::Server;
use crate::started::{NoServer, Started};
use host_block::{BlockSize, Oom};
use host_device::Device;
use host_frames::PoolSeat;
use host_io::Disk;
use host_session::{SessionHand, SessionSpec};
use host_turn::{Book, BookSeat, NoBook};
use std::alloc::Global;

impl<D: Disk> Server<D> {
    /// Starts a server over a device without steps: a session for each spec, all for so many hands.
    /// The memory of a run is taken here, but for the bytes of steps, room that hands make, and
    /// lists of claimed pages.
    pub fn start(
        alloc: Global,
        device: Device<D>,
        specs: &[SessionSpec],
        hands: u32,
        size: BlockSize,
    ) -> Result<Started<D>, NoServer<D>>
        requires hands { (1 ≤ hands) × (hands ≤ 4294967293) }
        requires device { ((steps_of device).items ≡ []) × ((shape_of device).size ≡ size) }
        requires specs { AreSpecs (steps_of device).kept (shape_of device).blocks size specs.now }
        ensures { MatchResult result (λ started. IsStarted device specs.now hands started)
            (λ refused. refused.device ≡ device) }
    {
        match prepare(alloc, specs, hands, size, device.is_kept()) {
            Ok(prepared) => open_server(alloc, device, hands, prepared),
            Err(Oom) => Err(NoServer { device }),
        }
    }
}

// Puts the device behind its book, and makes the hands.
fn open_server<D: Disk>(
    alloc: Global,
    device: Device<D>,
    hands: u32,
    prepared: Prepared<D>,
) -> Result<Started<D>, NoServer<D>>
    requires some { 1 ≤ hands }
    requires device { (steps_of device).items ≡ [] }
    requires specs { AreSpecs (steps_of device).kept (shape_of device).blocks (shape_of device).size
        (specs_of prepared.opened.sessions.items) }
    requires prepared { IsPrepared (specs_of prepared.opened.sessions.items) hands
        (shape_of device).size (steps_of device).kept prepared }
    ensures { MatchResult result
        (λ started. IsStarted device (specs_of prepared.opened.sessions.items) hands started)
        (λ refused. refused.device ≡ device) }
{
    let Prepared {
        pool,
        opened,
        mut shares,
        mut pool_seats,
        hands: mut all,
        ends,
    } = prepared;
    let (book, mut device_seats) = match Book::new(alloc, device, hands) {
        Ok(made) => made,
        Err(NoBook { state }) => return Err(NoServer { device: state }),
    };
    while !device_seats.is_empty() {
        let number = device_seats.len() as u32 - 1;
        let seat = book.hand_out(&mut device_seats);
        let hand = make_hand(number, seat, &mut pool_seats, &mut shares);
        all.push_reserved(hand);
    }
    all.reverse();
    all[0].room = Some(ClosingRoom {
        device_seats,
        pool_seats,
        ends,
    });
    let Opened { sessions, clients } = opened;
    let server = Server {
        device: book,
        pool,
        sessions,
        hands,
    };
    Ok(Started {
        server,
        clients,
        hands: all,
    })
}

// The hand of this number, with the last seat of the pool and the last share.
fn make_hand<D: Disk>(
    number: u32,
    device_seat: BookSeat<Device<D>>,
    pool_seats: &mut Vec<PoolSeat>,
    shares: &mut Vec<Vec<SessionHand>>,
) -> Hand<D>
    requires some { (0 < vec_len pool_seats.old) × (0 < vec_len shares.old) }
    ensures hand { (result.number ≡ number) × (result.device_seat ≡ device_seat) × (result.next ≡ 0)
        × (result.room ≡ None) }
    ensures pool { pool_seats.old.items ≡ pool_seats.new.items ++ result.pool_seat ∷ [] }
    ensures share { shares.old.items ≡ shares.new.items ++ result.sessions ∷ [] }
    ensures room { (vec_capacity pool_seats.new ≡ vec_capacity pool_seats.old) }
{
    Hand {
        number,
        device_seat,
        pool_seat: pool_seats.pop().unwrap(),
        sessions: shares.pop().unwrap(),
        next: 0,
        room: None,
    }
}
