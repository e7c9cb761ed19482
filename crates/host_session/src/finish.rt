//! How a client ends its session.
ghost use Rattle.std.specs.Prelude.{◌≡◌, ◌+◌, ◌≤◌, [], length, IsSome, IsTrue, MatchBool};
ghost use Rattle.std.specs.Prelude.{if◌then◌else◌, nat_lt, ◌&&◌, None};
ghost use Rattle.host_frames.specs.Seats.{pool_id, seat_pool};
ghost use Rattle.host_intake.specs.Entries.{maker_of};
ghost use Rattle.host_intake.specs.State.{plan_of_intake};
ghost use Rattle.host_intake.specs.Told.{is_ending, phase_in};
ghost use Rattle.host_memory.specs.Held.{first_held};
ghost use Rattle.host_memory.specs.Pins.{pins_left};
ghost use Rattle.host_memory.specs.State.{history};
ghost use Rattle.host_log.specs.History.{Adds};
ghost use Rattle.host_turn.specs.Seats.{IsSeatOutside, number, seen_by};
ghost use Rattle.host_session.specs.Calls.{IsFinished};
ghost use Rattle.host_session.specs.Client.{phase_for};
ghost use Rattle.host_session.specs.Closing.{AreOfPool, HasDropped, HasTurned, IsAttempt};
ghost use Rattle.host_session.specs.Closing.{IsAttemptInTurn, IsCloseAnswer, IsEndingSession};
ghost use Rattle.host_session.specs.Closing.{IsMemoryFreed, IsPinned, IsReleaseAnswer, IsTurnedTo};
ghost use Rattle.host_session.specs.Closing.{is_landed};
ghost use Rattle.host_session.specs.Plan.{IsItsPool, IsShared};

use crate::client::{ClientEnd, is_drained};
use crate::shared::SessionShared;
use host_frames::{Pool, PoolSeat};
use host_intake::Intake;
use host_memory::Memory;
use host_model::Event;
use host_record::Finish;
use host_turn::{Book, BookSeat, Story};
use std::sync::Wait;

impl ClientEnd {
    /// Ends the session: no more is sent. After a drain all that was sent is taken and answered;
    /// after an abort no more is taken, and no answer is received.
    pub fn finish<R: Wait>(&mut self, rt: &R, shared: &SessionShared, how: Finish)
        requires shared { IsShared self.old.plan shared.now }
        requires open { self.old.finish ≡ None }
        ensures { IsFinished how self.old self.new }
    {
        turn_to(rt, &shared.intake, &mut self.intake_seat, self.hands, how);
        self.finish = Some(how);
        match how {
            Finish::Drain => {}
            Finish::Abort => self.log.push(Event::Aborted),
        }
    }

    /// Closes the session if nothing is left to do, and tells whether it is closed now. All pages
    /// then go back, with this seat of the pool.
    pub fn close_if_done<R: Wait>(
        &mut self,
        rt: &R,
        shared: &SessionShared,
        pool: &Pool,
        seat: &mut PoolSeat,
    ) -> bool
        requires shared { IsShared self.old.plan shared.now }
        requires pool { IsItsPool self.old.plan pool.now seat.old }
        requires ended { IsSome self.old.finish }
        ensures { IsCloseAnswer self.old self.new seat.old seat.new result }
    {
        if self.closed {
            return true;
        }
        let drained = is_drained(self.finish);
        if is_waiting(drained, self.received, self.owed) {
            return false;
        }
        let attempt = try_to_close(
            rt,
            shared,
            &mut self.intake_seat,
            &mut self.memory_seat,
            self.hands,
            wanted_for(drained, self.sent),
            self.fronts.memory,
            pool,
            seat,
        );
        self.fronts.memory = attempt.memory_front;
        if !attempt.closed {
            return false;
        }
        self.closed = true;
        if !drained {
            return true;
        }
        self.log.push(Event::Drained);
        true
    }
}

// Whether an answer is owed after a drain that wasn't received.
fn is_waiting(drained: bool, received: u32, owed: u32) -> bool
    ensures { result ≡ (drained && nat_lt received owed) }
{
    drained && received < owed
}

// How many records have to be taken before the session is closed: after a drain all that were sent.
fn wanted_for(drained: bool, sent: u32) -> u32
    ensures { result ≡ (if drained then sent else 0) }
{
    if drained { sent } else { 0 }
}

// The client turns the session to drain or abort.
fn turn_to<R: Wait>(
    rt: &R,
    book: &Book<Intake>,
    seat: &mut BookSeat<Intake>,
    client: u32,
    how: Finish,
)
    requires seat { IsSeatOutside book.now seat.old }
    requires running { IsTurnedTo client [] seat.old }
    ensures { HasTurned client (phase_for how) seat.old seat.new }
{
    let mut intake = book.enter(rt, seat);
    intake.vouch();
    match how {
        Finish::Drain => intake.drain(client),
        Finish::Abort => intake.abort(client),
    }
    book.leave(seat, intake);
}

// Whether the session was closed, and how long the buffers' history is known to be.
#[derive(Drop)]
pub(crate) struct Attempt {
    closed: bool,
    memory_front: u64,
}

// Shuts the intake where so many records were taken, nothing is in flight or kept, and no buffer is
// pinned. The buffers' pages then go back. All of it is looked at under one turn of the intake.
fn try_to_close<R: Wait>(
    rt: &R,
    shared: &SessionShared,
    intake_seat: &mut BookSeat<Intake>,
    memory_seat: &mut BookSeat<Memory>,
    client: u32,
    wanted: u32,
    front: u64,
    pool: &Pool,
    seat: &mut PoolSeat,
) -> Attempt
    requires intake { IsSeatOutside shared.now.intake intake_seat.old
        × IsEndingSession client intake_seat.old }
    requires memory { IsSeatOutside shared.now.memory memory_seat.old }
    requires front { length (seen_by memory_seat.old) ≤ front }
    requires pool { AreOfPool client memory_seat.old seat.old (pool_id pool.now) }
    ensures { IsAttempt client wanted front intake_seat.old intake_seat.new memory_seat.old
        memory_seat.new seat.old seat.new result }
{
    let mut intake = shared.intake.enter(rt, intake_seat);
    intake.vouch();
    let attempt = close_in_turn(
        rt,
        &mut intake,
        &shared.memory,
        memory_seat,
        client,
        wanted,
        front,
        pool,
        seat,
    );
    shared.intake.leave(intake_seat, intake);
    attempt
}

// The same within the turn.
fn close_in_turn<R: Wait>(
    rt: &R,
    intake: &mut Intake,
    book: &Book<Memory>,
    memory_seat: &mut BookSeat<Memory>,
    client: u32,
    wanted: u32,
    front: u64,
    pool: &Pool,
    seat: &mut PoolSeat,
) -> Attempt
    requires phase { IsTrue (is_ending (phase_in intake.old.entries)) }
    requires client { client + 1 ≡ number intake.old.memory_seat }
    requires memory { IsSeatOutside book.now memory_seat.old }
    requires front { length (seen_by memory_seat.old) ≤ front }
    requires pool { AreOfPool client memory_seat.old seat.old (pool_id pool.now) }
    ensures answer { IsAttemptInTurn client wanted front intake.old intake.new memory_seat.old
        memory_seat.new seat.old seat.new result }
    ensures plan { plan_of_intake intake.new ≡ plan_of_intake intake.old }
    ensures adds { Adds maker_of client intake.old.entries intake.new.entries }
{
    if !is_landed(intake, wanted) {
        return Attempt {
            closed: false,
            memory_front: front,
        };
    }
    let front = front.max(intake.memory_front());
    let attempt = release_all(rt, book, memory_seat, client, front, pool, seat);
    if attempt.closed {
        intake.shut(client);
    }
    attempt
}

// Whether so many records were taken, and nothing is in flight or kept.
fn is_landed(intake: &Intake, wanted: u32) -> bool
    ensures { result ≡ is_landed wanted intake.now.entries }
{
    !(intake.flights() > 0 || intake.kept() > 0 || intake.taken() < wanted)
}

// Releases all buffers that hold pages and gives the pages back, unless a pin is left.
fn release_all<R: Wait>(
    rt: &R,
    book: &Book<Memory>,
    memory_seat: &mut BookSeat<Memory>,
    client: u32,
    front: u64,
    pool: &Pool,
    seat: &mut PoolSeat,
) -> Attempt
    requires seat { IsSeatOutside book.now memory_seat.old }
    requires pool { AreOfPool client memory_seat.old seat.old (pool_id pool.now) }
    ensures { IsReleaseAnswer client front memory_seat.old memory_seat.new seat.old seat.new
        result }
{
    let mut memory = book.enter_past(rt, memory_seat, front);
    memory.vouch();
    let closed = drop_where_free(&mut memory, client, pool, seat);
    let memory_front = memory.length();
    book.leave(memory_seat, memory);
    Attempt {
        closed,
        memory_front,
    }
}

// Where no pin is left, the buffers that hold pages are released.
fn drop_where_free(memory: &mut Memory, client: u32, pool: &Pool, seat: &mut PoolSeat) -> bool
    requires pool { (memory.old.plan.pool ≡ pool_id pool.now)
        × (seat_pool seat.old ≡ pool_id pool.now) }
    ensures answer { MatchBool result (IsMemoryFreed client memory.old memory.new seat.old seat.new)
        (IsPinned memory.old memory.new seat.old seat.new) }
    ensures plan { memory.new.plan ≡ memory.old.plan }
    ensures adds { Adds (λ e. e.hand) client memory.old.entries memory.new.entries }
{
    if memory.pins() > 0 {
        return false;
    }
    drop_all(memory, client, pool, seat);
    true
}

// No pin is left: the buffers that hold pages are released one by one.
fn drop_all(memory: &mut Memory, client: u32, pool: &Pool, seat: &mut PoolSeat)
    requires pins { length (pins_left (history memory.old)) ≡ 0 }
    requires pool { (memory.old.plan.pool ≡ pool_id pool.now)
        × (seat_pool seat.old ≡ pool_id pool.now) }
    ensures none { first_held (history memory.new) ≡ None }
    ensures dropped { HasDropped client memory.old memory.new seat.old seat.new }
    ensures adds { Adds (λ e. e.hand) client memory.old.entries memory.new.entries }
{
    while let Some(pages) = memory.drop_next(client) {
        pool.give_back(seat, pages);
    }
}
