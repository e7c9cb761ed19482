//! How a bench is made.
ghost use Rattle.std.specs.Prelude.{◌≡◌, ℕ, [], IfOk};
ghost use Rattle.atomic_table.specs.Seated.{TableId};
ghost use Rattle.host_frames.specs.Seats.{page_size, pool_id, seat_pool};
ghost use Rattle.host_group.specs.Seats.{cells_id, seat_cells};
ghost use Rattle.host_rings.specs.RequestEnds.{sender_of};
ghost use Rattle.host_log.specs.History.{Adds};
ghost use Rattle.host_turn.specs.Seats.{IsOutside, book_id, own_entries};
ghost use Rattle.host_intake.specs.State.{IsForAdmissions};
ghost use Rattle.intake_client.specs.Opened.{AreBlank, IsSeatFor, plan_for};

use crate::bench::Bench;
use host_block::{BlockSize, Oom, Range};
use host_frames::{Pages, Pool, PoolSeat};
use host_group::Cells;
use host_intake::Intake;
use host_memory::{Memory, MemoryLimits};
use host_rings::{Sender, request_ring};
use host_turn::{Book, BookSeat, Story};
use std::alloc::Global;
use std::sync::Wait;

/// How many records may be sent.
pub(crate) const RECORDS: u32 = 128;

impl Bench {
    /// A session that has just begun, with one buffer of so many pages, which was given before
    /// record `from` was sent. It has `Oom` for an answer only for want of memory, or of frames.
    pub fn new<R: Wait>(
        rt: &R,
        alloc: Global,
        part: Range,
        pages: u32,
        from: u32,
    ) -> Result<Bench, Oom> {
        let Some(size) = BlockSize::new(512) else {
            return Err(Oom);
        };
        let (pool, mut seats) = Pool::new(alloc, 16, size, 1)?;
        let mut seat = seats.pop().unwrap();
        let claimed = claim(alloc, &pool, &mut seat, pages)?;
        let (memory, resting, mut client, hand) = open_memory(alloc, size, &pool)?;
        let (sender, cells, intake) = open_intake(alloc, part, size, resting)?;
        let front = attach(rt, &memory, &mut client, claimed, from);
        let bench = Bench {
            memory,
            hand,
            cells,
            sender,
            intake,
            sent: 0,
            front,
            flight: None,
        };
        Ok(bench)
    }
}

// Pages for a buffer.
fn claim(alloc: Global, pool: &Pool, seat: &mut PoolSeat, count: u32) -> Result<Pages, Oom>
    requires { seat_pool seat.old ≡ pool_id pool.now }
    ensures { IfOk result (λ p. AreBlank (page_size pool.now) (pool_id pool.now) p) }
{
    let mut pages = Pages::with_room(alloc, count)?;
    match pool.claim(seat, count, &mut pages) {
        Ok(()) => Ok(pages),
        Err(_) => Err(Oom),
    }
}

// Buffers, with the seats of the admissions, the client and the hand.
fn open_memory(
    alloc: Global,
    size: BlockSize,
    pool: &Pool,
) -> Result<
    (
        Book<Memory>,
        BookSeat<Memory>,
        BookSeat<Memory>,
        BookSeat<Memory>,
    ),
    Oom,
>
    requires { page_size pool.now ≡ size }
    ensures admissions { IfOk result
        (λ r. IsSeatFor (book_id r.0) (plan_for size (pool_id pool.now)) 2 r.1) }
    ensures client { IfOk result
        (λ r. IsSeatFor (book_id r.0) (plan_for size (pool_id pool.now)) 1 r.2) }
    ensures hand { IfOk result
        (λ r. IsSeatFor (book_id r.0) (plan_for size (pool_id pool.now)) 0 r.3) }
{
    let limits = MemoryLimits {
        size,
        ids: 8,
        room: 64,
        records: RECORDS,
        moves: 8,
        hands: 1,
        keeps: true,
    };
    let memory = Memory::new(alloc, limits, pool)?;
    let Ok((book, mut seats)) = Book::new(alloc, memory, 3) else {
        return Err(Oom);
    };
    let admissions = book.hand_out(&mut seats);
    let client = book.hand_out(&mut seats);
    let hand = book.hand_out(&mut seats);
    Ok((book, admissions, client, hand))
}

// An intake with its ring and its cells.
fn open_intake(
    alloc: Global,
    part: Range,
    size: BlockSize,
    admissions: BookSeat<Memory>,
) -> Result<(Sender, Cells, Intake), Oom>
    requires outside { IsOutside admissions }
    requires admissions { IsForAdmissions 128 admissions }
    requires nothing { own_entries (λ e. e.hand) admissions ≡ [] }
    ensures sender { IfOk result (λ r. r.0 ≡ sender_of r.0.ring 128 128 [] []) }
    ensures seat { IfOk result (λ r. r.2.memory_seat ≡ admissions) }
    ensures cells { IfOk result (λ r. seat_cells r.2.cell_seat ≡ cells_id r.1) }
{
    let (sender, taker) = request_ring(alloc, 128, RECORDS)?;
    let (cells, admitting) = Cells::new(alloc)?;
    let intake = Intake::new(
        alloc, part, size, RECORDS, true, taker, admissions, admitting,
    )?;
    Ok((sender, cells, intake))
}

// The client attaches its buffer, and tells how long the buffers' history is then.
fn attach<R: Wait>(
    rt: &R,
    book: &Book<Memory>,
    seat: &mut BookSeat<Memory>,
    pages: Pages,
    from: u32,
) -> u64
    requires { (size : ℕ) × (pool : TableId × ℕ) × AreBlank size pool pages
        × IsSeatFor (book_id book.now) (plan_for size pool) 1 seat.old }
{
    let mut memory = book.enter(rt, seat);
    attach_first(&mut memory, pages, from);
    let front = memory.length();
    book.leave(seat, memory);
    front
}

// Attaches a buffer, if it has pages and is the first that happens to the memory.
fn attach_first(memory: &mut Memory, pages: Pages, from: u32) -> bool
    requires { (size : ℕ) × (pool : TableId × ℕ) × AreBlank size pool pages
        × (memory.old.plan ≡ plan_for size pool) }
    ensures adds { Adds (λ e. e.hand) 1 memory.old.entries memory.new.entries }
    ensures plan { memory.new.plan ≡ memory.old.plan }
{
    if memory.length() > 0 || pages.is_empty() {
        return false;
    }
    memory.attach(pages, from);
    true
}
