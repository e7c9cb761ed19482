//! A session is opened, and ended, on one thread.
ghost use Rattle.std.specs.Prelude.{◌≡◌, ◌≤◌, true};
ghost use Rattle.host_session.specs.Plan.{IsHand, IsShared};

use crate::caller::Caller;
use crate::desk::Desk;
use host_block::{BlockSize, Oom, Range};
use host_frames::Pool;
use host_model::{Events, MemEntries, TakenRows};
use host_session::{
    ClientEnd, SessionHand, SessionLogs, SessionShared, SessionSpec, close_session, open_session,
};
use std::alloc::Global;

/// The partition of each session here.
pub const PART: Range = Range {
    first: 34,
    count: 30,
};

/// What a session is opened with here.
#[derive(Clone, Copy)]
pub struct Sizes {
    pub frames: u32,
    pub depth: u32,
    pub records: u32,
    pub events: u64,
}

/// A session with one hand, that may give all ids.
pub fn open_desk(alloc: Global, sizes: Sizes) -> Result<Desk, Oom>
    requires frames { 1 ≤ sizes.frames }
    requires depth { (1 ≤ sizes.depth) × (sizes.depth ≤ 128) }
{
    let Some(size) = BlockSize::new(512) else {
        return Err(Oom);
    };
    let (pool, mut seats) = Pool::new(alloc, sizes.frames, size, 2)?;
    let hand_seat = seats.pop().unwrap();
    let seat = seats.pop().unwrap();
    let spec = SessionSpec {
        number: 1,
        part_number: 1,
        part: PART,
        size,
        depth: sizes.depth,
        records: sizes.records,
        attaches: 65_535,
        events: sizes.events,
        memory_room: 0,
        keeps: true,
    };
    let (shared, client, mut hands) = open_session(alloc, spec, 1, &pool)?;
    let hand = hands.pop().unwrap();
    let caller = Caller {
        client,
        seat,
        records: sizes.records,
        ended: false,
    };
    Ok(Desk {
        pool,
        shared,
        caller,
        hand,
        hand_seat,
    })
}

/// What a session leaves that keeps its histories: its log, the rows of its records and the history
/// of its buffers.
pub type Left = (Events, TakenRows, MemEntries);

/// Ends a session that is closed.
pub fn close_desk(alloc: Global, desk: Desk) -> Result<Option<Left>, Oom>
    requires { desk.caller.client.closed ≡ true }
{
    let Desk {
        shared,
        caller,
        hand,
        ..
    } = desk;
    let Caller { client, .. } = caller;
    close_parts(alloc, shared, client, hand)
}

// The same, of its parts.
pub(crate) fn close_parts(
    alloc: Global,
    shared: SessionShared,
    client: ClientEnd,
    hand: SessionHand,
) -> Result<Option<Left>, Oom>
    requires shared { IsShared client.plan shared }
    requires hand { IsHand client.plan 0 hand × (client.plan.hands ≡ 1) }
    requires closed { client.closed ≡ true }
{
    let Ok(mut hands) = Vec::with_capacity(alloc, 1) else {
        return Err(Oom);
    };
    hands.push_reserved(hand);
    Ok(kept(close_session(shared, client, hands)))
}

fn kept(logs: SessionLogs) -> Option<Left> {
    let SessionLogs { log, rows, memory } = logs;
    Some((log.into_list()?, rows.into_list()?, memory.into_list()?))
}
