// How a record is carried out.
ghost use Rattle.std.specs.Prelude.{◌≡◌, ℕ, ◌+◌, List, Some, None, length};
ghost use Rattle.atomic_table.specs.Seated.{TableId};
ghost use Rattle.host_frames.specs.Seats.{contents, given_back, pages_pool, pool_id, seat_pool};
ghost use Rattle.host_model.specs.declared.memory.MemEntry.{MemEntry};
ghost use Rattle.host_model.specs.declared.step.Step.{Step};
ghost use Rattle.host_record.specs.declared.opcode.Opcode.TheVariants as opcode;
ghost use Rattle.host_record.specs.Command.{opcode};
ghost use Rattle.host_turn.specs.Seats.{IsOutside, IsSameSeat, book_id, seen_by};
ghost use Rattle.host_hand.specs.declared.work.Work.TheVariants as work;
ghost use Rattle.host_hand.specs.Blocks.{HoldsFor, IsErrandInside};
ghost use Rattle.host_hand.specs.Buffers.{IsAtBuffers, IsHeld, IsOfPool};
ghost use Rattle.host_hand.specs.Errands.{errand_asks};
ghost use Rattle.host_hand.specs.Posts.{IsAtDevice, KeepsClaims};
ghost use Rattle.host_hand.specs.Runs.{HasRun, status_by};
ghost use Rattle.host_hand.specs.Works.{HasCarried, IsTransferBy, IsWork, pages_with, work_by};

use crate::block::carry_blocks;
use crate::errand::Errand;
use crate::hold::{LetGo, let_go, look};
use crate::run::Run;
use crate::step::step_at;
use crate::work::Work;
use host_block::Op;
use host_device::Device;
use host_frames::{Pages, Pool, PoolSeat};
use host_intake::RecordEnd;
use host_io::Disk;
use host_memory::Memory;
use host_model::SharedBytes;
use host_record::Status;
use host_turn::{Book, BookSeat};
use std::alloc::Global;
use std::sync::Wait;

/// How a record ended. Where it let go of a buffer for which a close waited: which record that is,
/// and the buffer's pages.
#[derive(Drop)]
pub(crate) struct Carried {
    pub(crate) end: RecordEnd,
    pub(crate) freed: Option<(u32, Pages)>,
}

/// Carries a record out, with no turn of the intake.
pub(crate) fn carry_out<D: Disk, R: Wait>(
    rt: &R,
    alloc: Global,
    memory: &Book<Memory>,
    memory_seat: &mut BookSeat<Memory>,
    device: &Book<Device<D>>,
    device_seat: &mut BookSeat<Device<D>>,
    pool: &Pool,
    pool_seat: &mut PoolSeat,
    errand: &Errand,
    work: Work,
) -> Carried
    requires buffers { IsAtBuffers (book_id memory.now) errand.now.hand errand.now.size
        memory_seat.old × IsOfPool (pool_id pool.now) memory_seat.old }
    requires device { IsAtDevice (book_id device.now) errand.now.hand errand.now.part
        errand.now.size device_seat.old }
    requires pool { seat_pool pool_seat.old ≡ pool_id pool.now }
    requires work { IsWork errand.now (pool_id pool.now) (seen_by memory_seat.old) work }
    ensures seats { IsSameSeat memory_seat.old memory_seat.new × IsOutside memory_seat.new
        × IsSameSeat device_seat.old device_seat.new × IsOutside device_seat.new }
    ensures carried { HasCarried errand.now work (pool_id pool.now) result (seen_by memory_seat.old)
        (seen_by memory_seat.new) (seen_by device_seat.old) (seen_by device_seat.new) }
    ensures claims { KeepsClaims pool_seat.old pool_seat.new }
    ensures given_back { given_back pool_seat.new ≡ given_back pool_seat.old + pages_with work }
{
    match work {
        Work::Refuse(status) => Carried::at_once(status),
        Work::Close(pages) => close(rt, memory, memory_seat, pool, pool_seat, errand, pages),
        Work::Read => transfer(
            rt,
            alloc,
            memory,
            memory_seat,
            device,
            device_seat,
            pool,
            errand,
            Op::Read,
        ),
        Work::Write => transfer(
            rt,
            alloc,
            memory,
            memory_seat,
            device,
            device_seat,
            pool,
            errand,
            Op::Write,
        ),
        Work::Trim => trim(
            rt,
            alloc,
            memory,
            memory_seat,
            device,
            device_seat,
            pool,
            errand,
        ),
        Work::Flush => flush(rt, device, device_seat, errand),
    }
}

impl Carried {
    // A refused record does nothing.
    fn at_once(status: Status) -> Carried
        ensures { result
            ≡ record {
              end = record { outcome = status; device_front = 0; memory_front = 0 };
              freed = None;
            } }
    {
        Carried {
            end: RecordEnd {
                outcome: status,
                device_front: 0,
                memory_front: 0,
            },
            freed: None,
        }
    }
}

// A close that didn't wait gives the pages of its buffer back.
fn close<R: Wait>(
    rt: &R,
    memory: &Book<Memory>,
    memory_seat: &mut BookSeat<Memory>,
    pool: &Pool,
    pool_seat: &mut PoolSeat,
    errand: &Errand,
    pages: Pages,
) -> Carried
    requires buffers { IsAtBuffers (book_id memory.now) errand.now.hand errand.now.size
        memory_seat.old }
    requires pool { (seat_pool pool_seat.old ≡ pool_id pool.now)
        × (pages_pool pages ≡ pool_id pool.now) }
    requires close { opcode errand.now.request ≡ Some opcode.Close }
    ensures seat { IsSameSeat memory_seat.old memory_seat.new × IsOutside memory_seat.new }
    ensures carried { (steps : List Step)
        → HasCarried errand.now (work.Close pages) (pool_id pool.now) result
        (seen_by memory_seat.old) (seen_by memory_seat.new) steps steps }
    ensures claims { KeepsClaims pool_seat.old pool_seat.new }
    ensures given_back { given_back pool_seat.new
        ≡ given_back pool_seat.old + length (contents pages) }
{
    pool.give_back(pool_seat, pages);
    let memory_front = look(rt, memory, memory_seat, errand);
    Carried {
        end: RecordEnd {
            outcome: Status::Ok,
            device_front: 0,
            memory_front,
        },
        freed: None,
    }
}

// The steps on all blocks of a transfer, and the flush after those of a forced write.
fn carry_steps<D: Disk, R: Wait>(
    rt: &R,
    alloc: Global,
    memory: &Book<Memory>,
    memory_seat: &mut BookSeat<Memory>,
    device: &Book<Device<D>>,
    device_seat: &mut BookSeat<Device<D>>,
    errand: &Errand,
    op: Op,
) -> Run
    requires buffers { IsAtBuffers (book_id memory.now) errand.now.hand errand.now.size
        memory_seat.old }
    requires device { IsAtDevice (book_id device.now) errand.now.hand errand.now.part
        errand.now.size device_seat.old }
    requires held { HoldsFor op errand.now (seen_by memory_seat.old) }
    requires inside { IsErrandInside errand.now }
    ensures seats { IsSameSeat memory_seat.old memory_seat.new × IsOutside memory_seat.new
        × IsSameSeat device_seat.old device_seat.new × IsOutside device_seat.new }
    ensures held { HoldsFor op errand.now (seen_by memory_seat.new) }
    ensures run { HasRun errand.now op 0 (errand_asks errand.now op) result
        (seen_by memory_seat.old) (seen_by memory_seat.new) (seen_by device_seat.old)
        (seen_by device_seat.new) }
{
    let run = carry_blocks(
        rt,
        alloc,
        memory,
        memory_seat,
        device,
        device_seat,
        errand,
        op,
    );
    if run.answer.is_err() {
        return run;
    }
    if !errand.flushes_after(op) {
        return run;
    }
    step_at(
        rt,
        device,
        device_seat,
        errand,
        errand.request.length,
        Op::Flush,
        0,
        SharedBytes::empty(),
    )
}

// A read or a write makes its steps, and lets go of its buffer.
fn transfer<D: Disk, R: Wait>(
    rt: &R,
    alloc: Global,
    memory: &Book<Memory>,
    memory_seat: &mut BookSeat<Memory>,
    device: &Book<Device<D>>,
    device_seat: &mut BookSeat<Device<D>>,
    pool: &Pool,
    errand: &Errand,
    op: Op,
) -> Carried
    requires buffers { IsAtBuffers (book_id memory.now) errand.now.hand errand.now.size
        memory_seat.old × IsOfPool (pool_id pool.now) memory_seat.old }
    requires device { IsAtDevice (book_id device.now) errand.now.hand errand.now.part
        errand.now.size device_seat.old }
    requires held { IsHeld errand.now (seen_by memory_seat.old) }
    requires inside { IsErrandInside errand.now }
    requires kind { IsTransferBy (opcode errand.now.request) op }
    ensures seats { IsSameSeat memory_seat.old memory_seat.new × IsOutside memory_seat.new
        × IsSameSeat device_seat.old device_seat.new × IsOutside device_seat.new }
    ensures carried { HasCarried errand.now (work_by op) (pool_id pool.now) result
        (seen_by memory_seat.old) (seen_by memory_seat.new) (seen_by device_seat.old)
        (seen_by device_seat.new) }
{
    let run = carry_steps(
        rt,
        alloc,
        memory,
        memory_seat,
        device,
        device_seat,
        errand,
        op,
    );
    let LetGo { freed, front } = let_go(rt, memory, memory_seat, pool, errand);
    Carried {
        end: RecordEnd {
            outcome: run.status(),
            device_front: run.front,
            memory_front: front,
        },
        freed,
    }
}

// A trim makes its steps.
fn trim<D: Disk, R: Wait>(
    rt: &R,
    alloc: Global,
    memory: &Book<Memory>,
    memory_seat: &mut BookSeat<Memory>,
    device: &Book<Device<D>>,
    device_seat: &mut BookSeat<Device<D>>,
    pool: &Pool,
    errand: &Errand,
) -> Carried
    requires buffers { IsAtBuffers (book_id memory.now) errand.now.hand errand.now.size
        memory_seat.old }
    requires device { IsAtDevice (book_id device.now) errand.now.hand errand.now.part
        errand.now.size device_seat.old }
    requires inside { IsErrandInside errand.now }
    requires kind { opcode errand.now.request ≡ Some opcode.Trim }
    ensures seats { IsSameSeat memory_seat.old memory_seat.new × IsOutside memory_seat.new
        × IsSameSeat device_seat.old device_seat.new × IsOutside device_seat.new }
    ensures carried { HasCarried errand.now work.Trim (pool_id pool.now) result
        (seen_by memory_seat.old) (seen_by memory_seat.new) (seen_by device_seat.old)
        (seen_by device_seat.new) }
{
    let _pool = pool;
    let run = carry_blocks(
        rt,
        alloc,
        memory,
        memory_seat,
        device,
        device_seat,
        errand,
        Op::Trim,
    );
    end_of(&run)
}

// A flush makes its one step.
fn flush<D: Disk, R: Wait>(
    rt: &R,
    device: &Book<Device<D>>,
    device_seat: &mut BookSeat<Device<D>>,
    errand: &Errand,
) -> Carried
    requires device { IsAtDevice (book_id device.now) errand.now.hand errand.now.part
        errand.now.size device_seat.old }
    requires kind { opcode errand.now.request ≡ Some opcode.Flush }
    ensures seat { IsSameSeat device_seat.old device_seat.new × IsOutside device_seat.new }
    ensures carried { (pool : TableId × ℕ) (h : List MemEntry)
        → HasCarried errand.now work.Flush pool result h h (seen_by device_seat.old)
        (seen_by device_seat.new) }
{
    let run = step_at(
        rt,
        device,
        device_seat,
        errand,
        0,
        Op::Flush,
        0,
        SharedBytes::empty(),
    );
    end_of(&run)
}

// The end of a record that uses no buffer.
fn end_of(run: &Run) -> Carried
    ensures { result
        ≡ record {
          end = record {
            outcome = status_by run.now.answer;
            device_front = run.now.front;
            memory_front = 0;
          };
          freed = None;
        } }
{
    Carried {
        end: RecordEnd {
            outcome: run.status(),
            device_front: run.front,
            memory_front: 0,
        },
        freed: None,
    }
}
