//! A server is finished.
ghost use Rattle.std.specs.Prelude.{◌≡◌, ◌<◌, ◌≤◌, [], ◌+◌, true, length, map, slice_get, IsSome};
ghost use Rattle.std.specs.Prelude.{Some, All, vec_capacity, vec_len};
ghost use Rattle.std.specs.Option.{ForSome};
ghost use Rattle.host_frames.specs.Seats.{SomeSeatRefused, frames_asked, frame_count, given_back};
ghost use Rattle.host_frames.specs.Seats.{granted, pool_id, seat_count, seat_pool};
ghost use Rattle.host_log.specs.Sums.{total};
ghost use Rattle.host_device.specs.Seen.{fixed_of, shape_of, steps_of};
ghost use Rattle.host_turn.specs.Seats.{opening_of};
ghost use Rattle.host_worker.specs.Accounts.{AreAccounted};
ghost use Rattle.host_worker.specs.Ends.{AreEnded, hand_end};
ghost use Rattle.host_worker.specs.Finishes.{AreClosed, AreHands, AreSessionsEnded, AreToEnd};
ghost use Rattle.host_worker.specs.Finishes.{HasRoomFor, HasTakenBack, IsSessionEndOf, IsToEnd};
ghost use Rattle.host_worker.specs.Finishes.{without_room};
ghost use Rattle.host_session.specs.Keeping.{AreKeptAs};
ghost use Rattle.host_worker.specs.SessionEnds.{report_of};
ghost use Rattle.host_worker.specs.Servers.{IsServer, keeps_of};
ghost use Rattle.host_worker.specs.Shares.{HaveOneMore};

use crate::finished::{Ends, Finished};
use crate::hand::Hand;
use crate::room::ClosingRoom;
use crate::server::Server;
use crate::session::Session;
use crate::session_end::{SessionEnd, SessionEnds, put_end};
use host_frames::{Pool, PoolSeat};
use host_io::Disk;
use host_record::Finish;
use host_session::{ClientEnd, SessionHand, close_session};
use std::snapshot::Snapshot;

impl<D: Disk> Server<D> {
    /// Puts all together at the end: the device with its steps, and how each session ended. These
    /// are all its clients and hands, and every session is closed. It takes no memory.
    pub fn finish(self, clients: Vec<ClientEnd>, mut hands: Vec<Hand<D>>) -> Finished<D>
        requires server { IsServer self }
        requires clients { AreClosed self clients.items }
        requires hands { AreHands self hands.items }
        requires accounted { AreAccounted hands.items clients.items }
        ensures ended { AreEnded clients.items (map hand_end hands.items) result.ends }
        ensures story { (result.ends.story ≡ (steps_of result.device).items)
            × (result.ends.size ≡ (shape_of result.device).size) }
        ensures device { fixed_of result.device ≡ fixed_of (opening_of self.device) }
        ensures keeps { result.ends.keeps ≡ keeps_of self }
    {
        let mut room = room_in(&mut hands);
        let Server {
            device,
            pool,
            mut sessions,
            ..
        } = self;
        take_back(&mut room, &mut sessions, hands);
        let ClosingRoom {
            device_seats,
            pool_seats,
            ends,
        } = room;
        let device = device.close(device_seats);
        let frames_home = close_pool(pool, pool_seats);
        let left = Snapshot::of(&device);
        let ends = Ends {
            sessions: end_all(sessions, clients, ends),
            frames_home,
            left,
        };
        Finished { device, ends }
    }
}

// The room that the first hand kept.
fn room_in<D: Disk>(hands: &mut Vec<Hand<D>>) -> ClosingRoom<D>
    requires some { 0 < vec_len hands.old }
    requires kept { ForSome (slice_get hands.old.items 0) (λ hand. IsSome hand.room) }
    ensures room { ForSome (slice_get hands.old.items 0) (λ hand. hand.room ≡ Some result) }
    ensures hands { map without_room hands.new.items ≡ map without_room hands.old.items }
{
    hands[0].room.take().unwrap()
}

// How many frames have their page at home, as the pool is closed.
fn close_pool(pool: Pool, seats: Vec<PoolSeat>) -> u32
    requires all { vec_len seats ≡ seat_count pool }
    requires seats { All (λ q. seat_pool q ≡ pool_id pool) seats.items }
    ensures home { result + total granted seats.items
        ≡ frame_count pool + total given_back seats.items }
    ensures refused { SomeSeatRefused (frame_count pool) seats.items
        → frame_count pool < total frames_asked seats.items }
{
    pool.close(seats)
}

// Takes the hands apart, in the room that was kept for their parts.
fn take_back<D: Disk>(room: &mut ClosingRoom<D>, sessions: &mut Vec<Session>, hands: Vec<Hand<D>>)
    requires room { HasRoomFor (length hands.items) room.old sessions.old.items }
    requires shares { All (λ hand. length hand.sessions.items ≡ length sessions.old.items)
        hands.items }
    ensures { HasTakenBack hands.items room.old room.new sessions.old.items sessions.new.items }
{
    for hand in hands {
        let Hand {
            device_seat,
            pool_seat,
            sessions: share,
            room: left,
            ..
        } = hand;
        drop(left);
        room.device_seats.push_reserved(device_seat);
        room.pool_seats.push_reserved(pool_seat);
        put_back(sessions, share);
    }
}

// What a hand has of each session comes back there.
fn put_back(sessions: &mut Vec<Session>, share: Vec<SessionHand>)
    requires share { length share.items ≡ length sessions.old.items }
    requires room { All (λ s. length s.hands.items < vec_capacity s.hands) sessions.old.items }
    ensures { HaveOneMore sessions.old.items sessions.new.items share.items }
{
    let mut k = 0;
    for hand in share {
        sessions[k].hands.push_reserved(hand);
        k += 1;
    }
}

// Ends all sessions, with their clients.
fn end_all(
    mut sessions: Vec<Session>,
    mut clients: Vec<ClientEnd>,
    mut ends: SessionEnds,
) -> SessionEnds
    requires sessions { AreToEnd ends.kept sessions.items clients.items }
    requires room { (ends.items ≡ []) × (length sessions.items ≤ ends.room) }
    ensures ended { AreSessionsEnded sessions.items clients.items result.items }
    ensures kept { result.kept ≡ ends.kept }
{
    sessions.reverse();
    clients.reverse();
    while let Some(session) = sessions.pop() {
        let client = clients.pop().unwrap();
        put_end(&mut ends, end_session(session, client));
    }
    ends
}

// Ends one session.
fn end_session(session: Session, client: ClientEnd) -> SessionEnd
    requires { IsToEnd client.plan.spec.keeps session client }
    ensures end { IsSessionEndOf session client (report_of result) }
    ensures kept { AreKeptAs client.plan.spec.keeps result.logs }
{
    let Session {
        spec,
        shared,
        hands,
        ..
    } = session;
    let finish = finish_of(&client);
    SessionEnd {
        number: spec.number,
        part: spec.part_number,
        range: spec.part,
        logs: close_session(shared.into_inner(), client, hands),
        finish,
    }
}

// How a session that is closed was told to end.
fn finish_of(client: &ClientEnd) -> Finish
    requires { client.now.closed ≡ true }
    ensures { client.now.finish ≡ Some result }
{
    client.vouch();
    match client.told_end() {
        Some(finish) => finish,
        None => unreachable!(),
    }
}
