// The blocks of a transfer or trim, one by one.
ghost use Rattle.std.specs.Prelude.{◌≡◌, ◌≤◌, ◌<◌, ◌+◌, [], ◌∷◌, length, IsTrue, IfOk, OnErr};
ghost use Rattle.host_block.specs.declared.op.Op.TheVariants.{Read, Write};
ghost use Rattle.host_intake.specs.Takings.{under};
ghost use Rattle.host_memory.specs.Pins.{is_pinned_by};
ghost use Rattle.host_memory.specs.Held.{is_block_of};
ghost use Rattle.host_memory.specs.State.{history, block_size_of};
ghost use Rattle.host_model.specs.RecordEntries.{lift_for};
ghost use Rattle.host_log.specs.History.{Adds};
ghost use Rattle.host_turn.specs.Seats.{IsOutside, IsSameSeat, book_id, seen_by};
ghost use Rattle.host_hand.specs.Blocks.{HasRunInTurn, HoldsFor, IsErrandInside};
ghost use Rattle.host_hand.specs.Buffers.{IsAtBuffers, IsHeld};
ghost use Rattle.host_hand.specs.Errands.{ask_at, asks_upto};
ghost use Rattle.host_log.specs.Growth.{HasGrown};
ghost use Rattle.host_hand.specs.Posts.{IsAtDevice};
ghost use Rattle.host_hand.specs.Runs.{HasRun};

use crate::errand::Errand;
use crate::hold::{lift, room_to_land};
use crate::read::{ReadRun, read_at};
use crate::run::Run;
use crate::step::step_at;
use host_block::{Oom, Op};
use host_device::Device;
use host_io::Disk;
use host_memory::Memory;
use host_model::SharedBytes;
use host_turn::{Book, BookSeat};
use std::alloc::Global;
use std::sync::Wait;

/// Makes the steps on all blocks of a record, in rising order, until one fails or memory is
/// refused.
pub(crate) fn carry_blocks<D: Disk, R: Wait>(
    rt: &R,
    alloc: Global,
    memory: &Book<Memory>,
    memory_seat: &mut BookSeat<Memory>,
    device: &Book<Device<D>>,
    device_seat: &mut BookSeat<Device<D>>,
    errand: &Errand,
    op: Op,
) -> Run
    requires buffers { IsAtBuffers (book_id memory.now) errand.now.hand errand.now.size
        memory_seat.old }
    requires device { IsAtDevice (book_id device.now) errand.now.hand errand.now.part
        errand.now.size device_seat.old }
    requires held { HoldsFor op errand.now (seen_by memory_seat.old) }
    requires inside { IsErrandInside errand.now }
    ensures seats { IsSameSeat memory_seat.old memory_seat.new × IsOutside memory_seat.new
        × IsSameSeat device_seat.old device_seat.new × IsOutside device_seat.new }
    ensures held { HoldsFor op errand.now (seen_by memory_seat.new) }
    ensures run { HasRun errand.now op 0 (asks_upto errand.now op errand.now.request.length) result
        (seen_by memory_seat.old) (seen_by memory_seat.new) (seen_by device_seat.old)
        (seen_by device_seat.new) }
{
    let mut front = 0;
    for k in 0..errand.request.length {
        let run = carry_block(
            rt,
            alloc,
            memory,
            memory_seat,
            device,
            device_seat,
            errand,
            op,
            k,
            front,
        );
        if run.answer.is_err() {
            return run;
        }
        front = run.front;
    }
    Run {
        answer: Ok(()),
        front,
    }
}

fn carry_block<D: Disk, R: Wait>(
    rt: &R,
    alloc: Global,
    memory: &Book<Memory>,
    memory_seat: &mut BookSeat<Memory>,
    device: &Book<Device<D>>,
    device_seat: &mut BookSeat<Device<D>>,
    errand: &Errand,
    op: Op,
    k: u32,
    front: u64,
) -> Run
    requires buffers { IsAtBuffers (book_id memory.now) errand.now.hand errand.now.size
        memory_seat.old }
    requires device { IsAtDevice (book_id device.now) errand.now.hand errand.now.part
        errand.now.size device_seat.old }
    requires held { HoldsFor op errand.now (seen_by memory_seat.old) }
    requires block { IsErrandInside errand.now × (k < errand.now.request.length) }
    requires front { front ≤ length (seen_by device_seat.old) }
    ensures seats { IsSameSeat memory_seat.old memory_seat.new × IsOutside memory_seat.new
        × IsSameSeat device_seat.old device_seat.new × IsOutside device_seat.new }
    ensures held { HoldsFor op errand.now (seen_by memory_seat.new) }
    ensures run { HasRun errand.now op k (ask_at errand.now op k ∷ []) result
        (seen_by memory_seat.old) (seen_by memory_seat.new) (seen_by device_seat.old)
        (seen_by device_seat.new) }
    ensures front { front ≤ result.front }
{
    match op {
        Op::Read => read_block(
            rt,
            alloc,
            memory,
            memory_seat,
            device,
            device_seat,
            errand,
            k,
            front,
        ),
        Op::Write => write_block(
            rt,
            alloc,
            memory,
            memory_seat,
            device,
            device_seat,
            errand,
            k,
            front,
        ),
        Op::Trim => step_at(
            rt,
            device,
            device_seat,
            errand,
            k,
            Op::Trim,
            errand.block(k),
            SharedBytes::empty(),
        ),
        Op::Flush => unreachable!(),
    }
}

// One block of a read. The turn of the buffers is kept from making room for the landing until it is
// made.
fn read_block<D: Disk, R: Wait>(
    rt: &R,
    alloc: Global,
    book: &Book<Memory>,
    memory_seat: &mut BookSeat<Memory>,
    device: &Book<Device<D>>,
    device_seat: &mut BookSeat<Device<D>>,
    errand: &Errand,
    k: u32,
    front: u64,
) -> Run
    requires buffers { IsAtBuffers (book_id book.now) errand.now.hand errand.now.size
        memory_seat.old }
    requires device { IsAtDevice (book_id device.now) errand.now.hand errand.now.part
        errand.now.size device_seat.old }
    requires held { IsHeld errand.now (seen_by memory_seat.old) }
    requires block { IsErrandInside errand.now × (k < errand.now.request.length) }
    requires front { front ≤ length (seen_by device_seat.old) }
    ensures seats { IsSameSeat memory_seat.old memory_seat.new × IsOutside memory_seat.new
        × IsSameSeat device_seat.old device_seat.new × IsOutside device_seat.new }
    ensures held { IsHeld errand.now (seen_by memory_seat.new) }
    ensures run { HasRun errand.now Read k (ask_at errand.now Read k ∷ []) result
        (seen_by memory_seat.old) (seen_by memory_seat.new) (seen_by device_seat.old)
        (seen_by device_seat.new) }
    ensures front { front ≤ result.front }
{
    let mut memory = book.enter_past(rt, memory_seat, errand.memory_front);
    memory.vouch();
    let page = errand.page(k);
    let run = read_in_turn(
        rt,
        alloc,
        &mut memory,
        device,
        device_seat,
        errand,
        k,
        page,
        front,
    );
    book.leave(memory_seat, memory);
    run
}

// The same within the turn.
fn read_in_turn<D: Disk, R: Wait>(
    rt: &R,
    alloc: Global,
    memory: &mut Memory,
    device: &Book<Device<D>>,
    device_seat: &mut BookSeat<Device<D>>,
    errand: &Errand,
    k: u32,
    page: u32,
    front: u64,
) -> Run
    requires pinned { IsTrue (is_pinned_by errand.now.hand errand.now.index errand.now.request.vmoid
        (history memory.old)) }
    requires page { IsTrue (is_block_of errand.now.request.vmoid (history memory.old) page)
        × (page ≡ errand.now.request.vmo_offset + k) }
    requires size { block_size_of memory.old ≡ errand.now.size }
    requires device { IsAtDevice (book_id device.now) errand.now.hand errand.now.part
        errand.now.size device_seat.old }
    requires block { IsErrandInside errand.now × (k < errand.now.request.length) }
    requires front { front ≤ length (seen_by device_seat.old) }
    ensures seat { IsSameSeat device_seat.old device_seat.new × IsOutside device_seat.new }
    ensures run { HasRunInTurn errand.now Read k (ask_at errand.now Read k ∷ []) result
        memory.old.entries memory.new.entries (seen_by device_seat.old) (seen_by device_seat.new) }
    ensures front { front ≤ result.front }
    ensures plan { memory.new.plan ≡ memory.old.plan }
    ensures adds { Adds (λ e. e.hand) errand.now.hand memory.old.entries memory.new.entries }
{
    let Ok(mut piece) = room_to_land(alloc, memory, errand) else {
        return Run::refused(front);
    };
    let read = read_at(
        rt,
        device,
        device_seat,
        errand,
        k,
        errand.block(k),
        piece.as_mut_slice(),
    );
    let ReadRun {
        answer,
        front: reached,
    } = read;
    match answer {
        Ok(bytes) => {
            memory.land(
                errand.hand,
                errand.index,
                k,
                errand.request.vmoid,
                page,
                bytes,
            );
            Run {
                answer: Ok(()),
                front: reached,
            }
        }
        Err(error) => Run {
            answer: Err(error),
            front: reached,
        },
    }
}

// One block of a write: its page is lifted, and then the step is made.
fn write_block<D: Disk, R: Wait>(
    rt: &R,
    alloc: Global,
    book: &Book<Memory>,
    memory_seat: &mut BookSeat<Memory>,
    device: &Book<Device<D>>,
    device_seat: &mut BookSeat<Device<D>>,
    errand: &Errand,
    k: u32,
    front: u64,
) -> Run
    requires buffers { IsAtBuffers (book_id book.now) errand.now.hand errand.now.size
        memory_seat.old }
    requires device { IsAtDevice (book_id device.now) errand.now.hand errand.now.part
        errand.now.size device_seat.old }
    requires held { IsHeld errand.now (seen_by memory_seat.old) }
    requires block { IsErrandInside errand.now × (k < errand.now.request.length) }
    requires front { front ≤ length (seen_by device_seat.old) }
    ensures seats { IsSameSeat memory_seat.old memory_seat.new × IsOutside memory_seat.new
        × IsSameSeat device_seat.old device_seat.new × IsOutside device_seat.new }
    ensures held { IsHeld errand.now (seen_by memory_seat.new) }
    ensures run { HasRun errand.now Write k (ask_at errand.now Write k ∷ []) result
        (seen_by memory_seat.old) (seen_by memory_seat.new) (seen_by device_seat.old)
        (seen_by device_seat.new) }
    ensures front { front ≤ result.front }
{
    let Ok(piece) = lift_page(rt, alloc, book, memory_seat, errand, k) else {
        return Run::refused(front);
    };
    step_at(
        rt,
        device,
        device_seat,
        errand,
        k,
        Op::Write,
        errand.block(k),
        piece,
    )
}

// Lifts a page for step `k` of a write, in a turn of the buffers.
fn lift_page<R: Wait>(
    rt: &R,
    alloc: Global,
    book: &Book<Memory>,
    seat: &mut BookSeat<Memory>,
    errand: &Errand,
    k: u32,
) -> Result<SharedBytes, Oom>
    requires buffers { IsAtBuffers (book_id book.now) errand.now.hand errand.now.size seat.old }
    requires held { IsHeld errand.now (seen_by seat.old) }
    requires block { k < errand.now.request.length }
    ensures seat { IsSameSeat seat.old seat.new × IsOutside seat.new }
    ensures held { IsHeld errand.now (seen_by seat.new) }
    ensures lifted { IfOk result (λ piece.
        (length piece ≡ errand.now.size)
        × HasGrown (λ e. e.hand) errand.now.hand errand.now.memory_front (length (seen_by seat.new))
        (under errand.now.hand (lift_for errand.now.index errand.now.request k piece ∷ []))
        (seen_by seat.old) (seen_by seat.new)) }
    ensures refused { OnErr result (HasGrown (λ e. e.hand) errand.now.hand errand.now.memory_front
        (length (seen_by seat.new)) [] (seen_by seat.old) (seen_by seat.new)) }
{
    let mut memory = book.enter_past(rt, seat, errand.memory_front);
    memory.vouch();
    let page = errand.page(k);
    let piece = lift(alloc, &mut memory, errand, k, page);
    book.leave(seat, memory);
    piece
}
