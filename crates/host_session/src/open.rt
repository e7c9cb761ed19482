//! A session is opened.
ghost use Rattle.std.specs.Prelude.{◌≡◌, ◌<◌, ◌≤◌, [], ◌∷◌, ◌++◌, IfOk, vec_len};
ghost use Rattle.host_frames.specs.Seats.{page_size, pool_id};
ghost use Rattle.host_session.specs.Opened.{AreHandsDealt, HasNewMemory, HaveRoomAs, IsDealt};
ghost use Rattle.host_session.specs.Opened.{IsSessionOpened, IsToDeal};

use crate::client::ClientEnd;
use crate::fronts::Fronts;
use crate::hand::SessionHand;
use crate::room::ClosingRoom;
use crate::shared::SessionShared;
use crate::spec::SessionSpec;
use host_block::Oom;
use host_frames::Pool;
use host_group::Cells;
use host_intake::Intake;
use host_log::SwitchLog;
use host_memory::{Memory, MemoryLimits};
use host_rings::{SlipSender, answer_ring, request_ring};
use host_turn::{Book, BookSeat};
use std::alloc::Global;
use std::snapshot::Snapshot;

/// Opens a session for so many hands: what all share, the client's end, and the hands by their
/// numbers. All memory that the session takes is taken here, but for the pages and for steps. It
/// has `Oom` for an answer only for want of memory.
pub fn open_session(
    alloc: Global,
    spec: SessionSpec,
    hands: u32,
    pool: &Pool,
) -> Result<(SessionShared, ClientEnd, Vec<SessionHand>), Oom>
    requires hands { (1 ≤ hands) × (hands ≤ 4294967293) }
    requires depth { (1 ≤ spec.depth) × (spec.depth ≤ 128) }
    requires size { page_size pool.now ≡ spec.size }
    ensures { IfOk result (λ r. IsSessionOpened spec hands (pool_id pool.now) r.0 r.1 r.2.items) }
{
    let (memory, mut memory_seats) = open_memory(alloc, &spec, hands, pool)?;
    let admissions = memory.hand_out(&mut memory_seats);
    let memory_seat = memory.hand_out(&mut memory_seats);
    let (sender, requests) = request_ring(alloc, spec.depth, spec.records)?;
    let (cells, cell_seat) = Cells::new(alloc)?;
    let state = Intake::new(
        alloc,
        spec.part,
        spec.size,
        spec.records,
        spec.keeps,
        requests,
        admissions,
        cell_seat,
    )?;
    let Ok((intake, mut intake_seats)) = Book::new(alloc, state, hands + 1) else {
        return Err(Oom);
    };
    let intake_seat = intake.hand_out(&mut intake_seats);
    let (senders, taker) = answer_ring(alloc, spec.depth, hands)?;
    let Some(events) = spec.events.checked_add(1) else {
        return Err(Oom);
    };
    let log = SwitchLog::with_room(alloc, events, spec.keeps)?;
    let mut closing = ClosingRoom {
        intake_seats,
        memory_seats,
        senders,
    };
    let all = deal(alloc, &intake, &memory, &mut closing)?;
    let client = ClientEnd {
        alloc,
        spec,
        hands,
        pool: Snapshot::of(pool),
        cells: Snapshot::of(&cells),
        log,
        sent: 0,
        received: 0,
        given: 0,
        owed: 0,
        finish: None,
        closed: false,
        fronts: Fronts {
            device: 0,
            memory: 0,
        },
        intake_seat,
        memory_seat,
        sender,
        taker,
        closing,
    };
    let shared = SessionShared {
        intake,
        memory,
        cells,
    };
    Ok((shared, client, all))
}

// The buffers' book, with a seat for each hand, the client and the admissions.
fn open_memory(
    alloc: Global,
    spec: &SessionSpec,
    hands: u32,
    pool: &Pool,
) -> Result<(Book<Memory>, Vec<BookSeat<Memory>>), Oom>
    requires hands { hands ≤ 4294967293 }
    requires size { page_size pool.now ≡ spec.now.size }
    ensures { IfOk result (λ r. HasNewMemory spec.now hands (pool_id pool.now) r.0 r.1.items) }
{
    let ids = spec.attaches.min(65535);
    let Some(room) = (3 * ids as u64).checked_add(spec.events) else {
        return Err(Oom);
    };
    let limits = MemoryLimits {
        size: spec.size,
        ids,
        room,
        records: spec.records,
        moves: spec.memory_room,
        hands,
        keeps: spec.keeps,
    };
    let memory = Memory::new(alloc, limits, pool)?;
    match Book::new(alloc, memory, hands + 2) {
        Ok(made) => Ok(made),
        Err(_) => Err(Oom),
    }
}

// The hands, by their numbers. What was dealt out leaves its room behind.
fn deal(
    alloc: Global,
    intake: &Book<Intake>,
    memory: &Book<Memory>,
    closing: &mut ClosingRoom,
) -> Result<Vec<SessionHand>, Oom>
    requires { IsToDeal intake.now memory.now closing.old }
    ensures { IfOk result
        (λ all. AreHandsDealt intake.now memory.now closing.old closing.new all.items) }
{
    let Ok(mut all) = Vec::with_capacity(alloc, closing.senders.len()) else {
        return Err(Oom);
    };
    while !closing.senders.is_empty() {
        let hand = last_hand(intake, memory, closing);
        all.push_reserved(hand);
    }
    all.reverse();
    Ok(all)
}

// The last sender that is left, with the seats of its number.
fn last_hand(intake: &Book<Intake>, memory: &Book<Memory>, closing: &mut ClosingRoom) -> SessionHand
    requires left { IsToDeal intake.now memory.now closing.old }
    requires some { 0 < vec_len closing.old.senders }
    ensures left { IsToDeal intake.now memory.now closing.new }
    ensures hand { IsDealt intake.now memory.now (vec_len closing.new.senders) result }
    ensures sender { closing.old.senders.items ≡ closing.new.senders.items ++ result.sender ∷ [] }
    ensures room { HaveRoomAs closing.old closing.new }
{
    let sender = closing.senders.pop().unwrap();
    SessionHand {
        intake: intake.hand_out(&mut closing.intake_seats),
        memory: memory.hand_out(&mut closing.memory_seats),
        sender,
    }
}
