// What there is to do at a session, found under one turn of its intake.
ghost use Rattle.std.specs.Prelude.{◌≡◌, ◌≤◌, List, false, length, IsSome, MatchBool, MatchOption};
ghost use Rattle.host_frames.specs.Seats.{pool_id};
ghost use Rattle.host_group.specs.Seats.{cells_id, seat_cells};
ghost use Rattle.host_intake.specs.declared.entry.IntakeEntry.{IntakeEntry};
ghost use Rattle.host_intake.specs.Entries.{maker_of, takings};
ghost use Rattle.host_intake.specs.Ledgers.{is_shut};
ghost use Rattle.host_intake.specs.State.{plan_of_intake};
ghost use Rattle.host_intake.specs.Told.{phase_in};
ghost use Rattle.host_record.specs.Command.{opcode};
ghost use Rattle.host_record.specs.Request.{request_of};
ghost use Rattle.host_log.specs.History.{Adds, Continues};
ghost use Rattle.host_turn.specs.Seats.{IsOutside, IsSameSeat, book_id, seat_book, seen_by};
ghost use Rattle.host_hand.specs.Buffers.{IsAtBuffers, IsOfPool};
ghost use Rattle.host_hand.specs.Jobs.{HasDoneBelow, HasPassed, IsNext};
ghost use Rattle.host_hand.specs.WorkKinds.{next_for, work_for};
ghost use Rattle.host_hand.specs.Posts.{IsPosted, IsSameHand};
ghost use Rattle.host_hand.specs.Visits.{IsNoteAt, count_told};

use crate::job::Job;
use crate::work::{Work, work_of};
use host_frames::{Pages, Pool};
use host_group::{CellSeat, Cells};
use host_intake::{Admission, Intake, Phase};
use host_memory::Memory;
use host_record::Request;
use host_rings::{Envelope, Note, SlipSender};
use host_session::{SessionHand, SessionShared, SessionSpec};
use host_turn::{Book, BookSeat};
use std::sync::Wait;

/// What a hand found to do.
#[derive(Drop)]
pub(crate) enum Next {
    /// A kept answer was handed on.
    Passed,
    /// A close was taken that waits for pins.
    Waits,
    Idle,
    Closed,
    Took(Job),
}

/// Hands on the oldest kept answer, or else takes the next record. A note tells how many records
/// were sent.
pub(crate) fn find_next<R: Wait>(
    rt: &R,
    session: &SessionShared,
    spec: &SessionSpec,
    pool: &Pool,
    me: u32,
    hand: &mut SessionHand,
    note: Option<Note>,
) -> Next
    requires hand { IsPosted spec.now me (pool_id pool.now) session.now hand.old }
    requires note { IsNoteAt hand.old.intake note }
    requires clean { HasDoneBelow me (length (takings (seen_by hand.old.intake)))
        (seen_by hand.old.memory) }
    ensures same { IsSameHand hand.old hand.new }
    ensures buffers { Continues (λ e. e.hand) me (seen_by hand.old.memory)
        (seen_by hand.new.memory) }
    ensures found { (before : List IntakeEntry)
        × Continues maker_of me (seen_by hand.old.intake) before
        × IsNext (cells_id session.now.cells) spec.now (pool_id pool.now) (count_told note) me
        before (seen_by hand.new.intake) (seen_by hand.new.memory) hand.old.sender hand.new.sender
        result }
{
    let mut intake = session.intake.enter(rt, &mut hand.intake);
    hear(&mut intake, note);
    let next = next_in_turn(
        rt,
        &mut intake,
        &session.memory,
        &session.cells,
        spec,
        pool,
        me,
        &mut hand.memory,
        &mut hand.sender,
    );
    session.intake.leave(&mut hand.intake, intake);
    next
}

// The intake hears how many records were sent, where there is a note.
fn hear(intake: &mut Intake, note: Option<Note>)
    requires { MatchOption note (Unit {0}) (λ n. n.ring ≡ intake.old.taker.ring) }
    ensures heard { count_told note ≤ length intake.new.taker.heard }
    ensures entries { intake.new.entries ≡ intake.old.entries }
    ensures plan { plan_of_intake intake.new ≡ plan_of_intake intake.old }
{
    if let Some(note) = note {
        intake.hear(note);
    }
}

// The same within the turn.
fn next_in_turn<R: Wait>(
    rt: &R,
    intake: &mut Intake,
    memory: &Book<Memory>,
    cells: &Cells,
    spec: &SessionSpec,
    pool: &Pool,
    me: u32,
    memory_seat: &mut BookSeat<Memory>,
    sender: &mut SlipSender,
) -> Next
    requires intake { (seat_book intake.old.memory_seat ≡ book_id memory.now)
        × (seat_cells intake.old.cell_seat ≡ cells_id cells.now)
        × (intake.old.part ≡ spec.now.part) }
    requires seat { IsAtBuffers (book_id memory.now) me spec.now.size memory_seat.old
        × IsOfPool (pool_id pool.now) memory_seat.old }
    requires clean { HasDoneBelow me (length (takings intake.old.entries))
        (seen_by memory_seat.old) }
    ensures seat { IsSameSeat memory_seat.old memory_seat.new × IsOutside memory_seat.new }
    ensures buffers { Continues (λ e. e.hand) me (seen_by memory_seat.old)
        (seen_by memory_seat.new) }
    ensures found { IsNext (cells_id cells.now) spec.now (pool_id pool.now)
        (length intake.old.taker.heard) me intake.old.entries intake.new.entries
        (seen_by memory_seat.new) sender.old sender.new result }
    ensures plan { plan_of_intake intake.new ≡ plan_of_intake intake.old }
    ensures adds { Adds maker_of me intake.old.entries intake.new.entries }
{
    if is_closed(intake) {
        return Next::Closed;
    }
    if pass_kept(rt, intake, me, sender) {
        return Next::Passed;
    }
    take_next(
        rt,
        intake,
        memory,
        cells,
        spec,
        pool,
        me,
        memory_seat,
        sender,
    )
}

fn is_closed(intake: &Intake) -> bool
    ensures { result ≡ is_shut (phase_in intake.now.entries) }
{
    matches!(intake.phase(), Phase::Closed)
}

// Pushes the oldest answer that is kept, if there is one and the ring has room.
fn pass_kept<R: Wait>(rt: &R, intake: &mut Intake, me: u32, sender: &mut SlipSender) -> bool
    ensures answer { MatchBool result
        (HasPassed me intake.old.entries intake.new.entries sender.old sender.new)
        ((sender.new ≡ sender.old) × (intake.new ≡ intake.old)) }
    ensures rest { intake.new ≡ record intake.old { entries = intake.new.entries } }
    ensures adds { Adds maker_of me intake.old.entries intake.new.entries }
{
    match intake.next_kept() {
        Some(slip) => {
            if sender.push(rt, slip).is_err() {
                return false;
            }
            intake.passed(me);
            true
        }
        None => false,
    }
}

// Takes the next record.
fn take_next<R: Wait>(
    rt: &R,
    intake: &mut Intake,
    memory: &Book<Memory>,
    cells: &Cells,
    spec: &SessionSpec,
    pool: &Pool,
    me: u32,
    memory_seat: &mut BookSeat<Memory>,
    sender: &SlipSender,
) -> Next
    requires intake { (seat_book intake.old.memory_seat ≡ book_id memory.now)
        × (seat_cells intake.old.cell_seat ≡ cells_id cells.now)
        × (intake.old.part ≡ spec.now.part) }
    requires seat { IsAtBuffers (book_id memory.now) me spec.now.size memory_seat.old
        × IsOfPool (pool_id pool.now) memory_seat.old }
    requires clean { HasDoneBelow me (length (takings intake.old.entries))
        (seen_by memory_seat.old) }
    requires phase { is_shut (phase_in intake.old.entries) ≡ false }
    ensures seat { IsSameSeat memory_seat.old memory_seat.new × IsOutside memory_seat.new }
    ensures buffers { Continues (λ e. e.hand) me (seen_by memory_seat.old)
        (seen_by memory_seat.new) }
    ensures found { IsNext (cells_id cells.now) spec.now (pool_id pool.now)
        (length intake.old.taker.heard) me intake.old.entries intake.new.entries
        (seen_by memory_seat.new) sender.now sender.now result }
    ensures plan { plan_of_intake intake.new ≡ plan_of_intake intake.old }
    ensures adds { Adds maker_of me intake.old.entries intake.new.entries }
{
    let _spec = spec;
    let _pool = pool;
    let _sender = sender;
    match intake.admit_next(rt, me, memory, memory_seat, cells) {
        Admission::Refused {
            envelope,
            status,
            right,
        } => Next::Took(Job {
            envelope,
            work: Work::Refuse(status),
            right,
        }),
        Admission::Admitted {
            envelope,
            pages,
            right,
        } => admitted(envelope, pages, right),
        Admission::Finished => Next::Idle,
        Admission::AtLimit => Next::Idle,
        Admission::NoRecord => Next::Idle,
        Admission::Stalled => Next::Idle,
    }
}

// What is to be done for a record that was accepted.
fn admitted(envelope: Envelope, pages: Option<Pages>, right: Option<CellSeat>) -> Next
    requires { IsSome (opcode (request_of envelope.bytes)) }
    ensures { result
        ≡ next_for envelope right (work_for (opcode (request_of envelope.bytes)) pages) }
{
    let request = Request::from_bytes(&envelope.bytes);
    match work_of(&request, pages) {
        Some(work) => Next::Took(Job {
            envelope,
            work,
            right,
        }),
        None => Next::Waits,
    }
}
