//! All that a server has but its device.
ghost use Rattle.std.specs.Prelude.{◌<◌, ◌≤◌, length, IfOk, All, slice_get, vec_len, vec_capacity};
ghost use Rattle.std.specs.Option.{ForSome};
ghost use Rattle.host_frames.specs.Seats.{page_size, pool_id};
ghost use Rattle.host_worker.specs.Shares.{HasHands, HaveOneMore};
ghost use Rattle.host_worker.specs.Starts.{AreSharesDealt, AreOpened, HasGiven, HasOpened};
ghost use Rattle.host_worker.specs.Starts.{IsPlanned, IsPrepared};

use crate::hand::Hand;
use crate::session::Session;
use crate::session_end::SessionEnds;
use crossbeam_utils::CachePadded;
use host_block::{BlockSize, Oom};
use host_frames::{Pool, PoolSeat};
use host_io::Disk;
use host_session::{ClientEnd, SessionHand, SessionSpec, open_session};
use std::alloc::Global;
use std::snapshot::Snapshot;

// How many pages the pool has.
const FRAMES: u32 = 4096;

/// All that a server has but its device, and what each hand has of the sessions.
#[derive(Drop)]
pub struct Prepared<D: Disk> {
    pub pool: Pool,
    pub opened: Opened,
    pub shares: Vec<Vec<SessionHand>>,
    pub pool_seats: Vec<PoolSeat>,
    /// Empty, with room for all hands, and for what each session ends with.
    pub hands: Vec<Hand<D>>,
    pub ends: SessionEnds,
}

/// Sessions, and their clients.
#[derive(Drop)]
pub struct Opened {
    pub sessions: Vec<Session>,
    pub clients: Vec<ClientEnd>,
}

/// Takes all memory of a server but that of its device's book. The reports of its sessions are kept
/// or not.
pub fn prepare<D: Disk>(
    alloc: Global,
    specs: &[SessionSpec],
    hands: u32,
    size: BlockSize,
    keeps: bool,
) -> Result<Prepared<D>, Oom>
    requires hands { (1 ≤ hands) × (hands ≤ 4294967293) }
    requires specs { All (IsPlanned size) specs.now }
    ensures { IfOk result (λ prepared. IsPrepared specs.now hands size keeps prepared) }
{
    let (pool, pool_seats) = Pool::new(alloc, FRAMES, size, hands)?;
    let mut opened = open_all(alloc, specs, hands, &pool)?;
    let shares = deal(alloc, &mut opened.sessions, hands)?;
    let ends = SessionEnds::with_room(alloc, specs.len() as u64, keeps)?;
    let Ok(all) = Vec::with_capacity(alloc, hands as usize) else {
        return Err(Oom);
    };
    Ok(Prepared {
        pool,
        opened,
        shares,
        pool_seats,
        hands: all,
        ends,
    })
}

// A session for each spec.
fn open_all(alloc: Global, specs: &[SessionSpec], hands: u32, pool: &Pool) -> Result<Opened, Oom>
    requires hands { (1 ≤ hands) × (hands ≤ 4294967293) }
    requires specs { All (IsPlanned (page_size pool.now)) specs.now }
    ensures { IfOk result (λ opened. AreOpened specs.now hands hands (pool_id pool.now) opened) }
{
    let Ok(sessions) = Vec::with_capacity(alloc, specs.len()) else {
        return Err(Oom);
    };
    let Ok(clients) = Vec::with_capacity(alloc, specs.len()) else {
        return Err(Oom);
    };
    let mut opened = Opened { sessions, clients };
    for k in 0..specs.len() {
        opened.add(alloc, &specs[k], hands, pool)?;
    }
    Ok(opened)
}

impl Opened {
    // Opens one session more.
    fn add(&mut self, alloc: Global, spec: &SessionSpec, hands: u32, pool: &Pool) -> Result<(), Oom>
        requires hands { (1 ≤ hands) × (hands ≤ 4294967293) }
        requires planned { IsPlanned (page_size pool.now) spec.now }
        requires room { (vec_len self.old.sessions < vec_capacity self.old.sessions)
            × (vec_len self.old.clients < vec_capacity self.old.clients) }
        ensures { IfOk result (λ _. HasOpened spec.now hands (pool_id pool.now) self.old self.new) }
    {
        let (shared, client, all) = open_session(alloc, *spec, hands, pool)?;
        let opened = Snapshot::of(&client);
        let session = Session {
            spec: *spec,
            shared: CachePadded::new(shared),
            opened,
            hands: all,
        };
        self.sessions.push_reserved(session);
        self.clients.push_reserved(client);
        Ok(())
    }
}

// Deals out what hands have of the sessions: to each hand its share, by their numbers.
fn deal(
    alloc: Global,
    sessions: &mut Vec<Session>,
    hands: u32,
) -> Result<Vec<Vec<SessionHand>>, Oom>
    requires full { All (HasHands hands) sessions.old.items }
    ensures { IfOk result
        (λ shares. AreSharesDealt hands sessions.old.items sessions.new.items shares.items) }
{
    let Ok(mut shares) = Vec::with_capacity(alloc, hands as usize) else {
        return Err(Oom);
    };
    for _ in 0..hands {
        let share = last_share(alloc, sessions)?;
        shares.push_reserved(share);
    }
    shares.reverse();
    Ok(shares)
}

// What the last hand has of each session.
fn last_share(alloc: Global, sessions: &mut Vec<Session>) -> Result<Vec<SessionHand>, Oom>
    requires some { All (λ s. 0 < length s.hands.items) sessions.old.items }
    ensures { IfOk result (λ share. HaveOneMore sessions.new.items sessions.old.items share.items) }
{
    let Ok(mut share) = Vec::with_capacity(alloc, sessions.len()) else {
        return Err(Oom);
    };
    for k in 0..sessions.len() {
        let hand = last_hand(sessions, k);
        share.push_reserved(hand);
    }
    Ok(share)
}

// The last hand that session k has left.
fn last_hand(sessions: &mut Vec<Session>, k: usize) -> SessionHand
    requires place { k < vec_len sessions.old }
    requires some { ForSome (slice_get sessions.old.items k) (λ s. 0 < length s.hands.items) }
    ensures { HasGiven k sessions.old.items sessions.new.items result }
{
    sessions[k].hands.pop().unwrap()
}
