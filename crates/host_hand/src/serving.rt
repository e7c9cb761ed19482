//! A hand serves a session.
ghost use Rattle.std.specs.Prelude.{◌≡◌, ◌+◌, false};
ghost use Rattle.host_frames.specs.Seats.{given_back, pool_id, seat_pool};
ghost use Rattle.host_group.specs.Seats.{cells_id};
ghost use Rattle.host_intake.specs.Ledgers.{is_shut};
ghost use Rattle.host_intake.specs.Told.{phase_in};
ghost use Rattle.host_turn.specs.Seats.{book_id, seen_by};
ghost use Rattle.host_hand.specs.Frames.{frames_out};
ghost use Rattle.host_hand.specs.Jobs.{HasJob};
ghost use Rattle.host_hand.specs.Kept.{KeepsSession};
ghost use Rattle.host_hand.specs.Posts.{IsAtDevice, IsPosted, IsSameHand, KeepsClaims};
ghost use Rattle.host_hand.specs.Serves.{HasServed, HasStepped};
ghost use Rattle.host_hand.specs.Visits.{HasSeenMore, IsNoteAt, begun_by, count_told};
ghost use Rattle.host_hand.specs.Works.{pages_with};

use crate::calls::{Calls, Watched};
use crate::carry::carry_out;
use crate::close::end_freed;
use crate::end::{Settled, land, push_answer, settle};
use crate::errand::Errand;
use crate::job::Job;
use crate::next::{Next, find_next};
use crate::visit::Visit;
use host_device::Device;
use host_frames::{Pool, PoolSeat};
use host_io::{Disk, Gate};
use host_rings::Note;
use host_session::{SessionHand, SessionShared, SessionSpec};
use host_turn::{Book, BookSeat};
use std::alloc::Global;
use std::sync::Wait;

/// Hands on the oldest kept answer of a session, or else takes its next record, carries it out and
/// tells its end.
///
/// `me` is the hand's number. A note tells how many records were sent; where they were all taken,
/// or why the next one can't be, is then told by an idle visit. A close that has to wait for pins
/// is taken and left with the intake.
pub fn serve<D: Disk, G: Gate, R: Wait>(
    rt: &R,
    alloc: Global,
    session: &SessionShared,
    spec: &SessionSpec,
    device: &Book<Device<D>>,
    pool: &Pool,
    me: u32,
    hand: &mut SessionHand,
    device_seat: &mut BookSeat<Device<D>>,
    pool_seat: &mut PoolSeat,
    gate: &G,
    note: Option<Note>,
) -> Visit
    requires hand { IsPosted spec.now me (pool_id pool.now) session.now hand.old }
    requires device { IsAtDevice (book_id device.now) me spec.now.part spec.now.size
        device_seat.old }
    requires pool { seat_pool pool_seat.old ≡ pool_id pool.now }
    requires kept { KeepsSession spec.now me hand.old (seen_by device_seat.old) }
    requires note { IsNoteAt hand.old.intake note }
    ensures { HasServed spec.now me hand.old hand.new device_seat.old device_seat.new pool_seat.old
        pool_seat.new (count_told note) result }
{
    match find_next(rt, session, spec, pool, me, hand, note) {
        Next::Passed => Visit::Did,
        Next::Waits => Visit::Did,
        Next::Idle => Visit::Idle,
        Next::Closed => Visit::Closed,
        Next::Took(job) => {
            work_off(
                rt,
                alloc,
                session,
                spec,
                device,
                pool,
                me,
                hand,
                device_seat,
                pool_seat,
                &Watched { gate },
                job,
            );
            Visit::Did
        }
    }
}

// Carries out a record that was taken, and tells its end, between the gate's two calls.
fn work_off<D: Disk, C: Calls, R: Wait>(
    rt: &R,
    alloc: Global,
    session: &SessionShared,
    spec: &SessionSpec,
    device: &Book<Device<D>>,
    pool: &Pool,
    me: u32,
    hand: &mut SessionHand,
    device_seat: &mut BookSeat<Device<D>>,
    pool_seat: &mut PoolSeat,
    gate: &C,
    job: Job,
)
    requires hand { IsPosted spec.now me (pool_id pool.now) session.now hand.old }
    requires device { IsAtDevice (book_id device.now) me spec.now.part spec.now.size
        device_seat.old }
    requires pool { seat_pool pool_seat.old ≡ pool_id pool.now }
    requires job { HasJob (cells_id session.now.cells) spec.now (pool_id pool.now) me
        (seen_by hand.old.intake) (seen_by hand.old.memory) (seen_by device_seat.old)
        hand.old.sender.pushed job }
    ensures same { IsSameHand hand.old hand.new }
    ensures stepped { HasStepped spec.now.number me device_seat.old device_seat.new }
    ensures claims { KeepsClaims pool_seat.old pool_seat.new }
    ensures kept { KeepsSession spec.now me hand.new (seen_by device_seat.new) }
    ensures more { HasSeenMore hand.old hand.new }
    ensures frames { given_back pool_seat.new + frames_out me hand.old
        ≡ given_back pool_seat.old + pages_with job.work + frames_out me hand.new }
    ensures did { begun_by me (seen_by hand.new.intake) ≡ begun_by me (seen_by hand.old.intake) }
    ensures phase { is_shut (phase_in (seen_by hand.new.intake)) ≡ false }
    ensures gated { C.began gate.now spec.now.number job.envelope.index
        × C.ended gate.now spec.now.number job.envelope.index }
{
    let Job {
        envelope,
        work,
        right,
    } = job;
    let errand = Errand::of(me, spec, &envelope);
    gate.before(spec.number, errand.index);
    let carried = carry_out(
        rt,
        alloc,
        &session.memory,
        &mut hand.memory,
        device,
        device_seat,
        pool,
        pool_seat,
        &errand,
        work,
    );
    let end = carried.end;
    end_freed(
        rt,
        gate,
        session,
        &errand,
        &mut hand.intake,
        &mut hand.sender,
        pool,
        pool_seat,
        carried,
    );
    let Settled { answer, right } = settle(
        &session.cells,
        &errand.request,
        errand.index,
        end,
        right,
    );
    let kept = push_answer(rt, &mut hand.sender, answer);
    gate.after(spec.number, errand.index);
    land(
        rt,
        session,
        me,
        &mut hand.intake,
        errand.index,
        end,
        answer,
        kept,
        right,
    );
}
