// What a hand does with the buffer of a record.
ghost use Rattle.std.specs.Prelude.{◌≡◌, ◌≤◌, ◌<◌, ◌+◌, ◌++◌, [], ◌∷◌, length, OnOk, OnErr, IfOk};
ghost use Rattle.std.specs.Prelude.{IsTrue};
ghost use Rattle.host_frames.specs.Seats.{pool_id};
ghost use Rattle.host_memory.specs.Pins.{is_pinned_by};
ghost use Rattle.host_memory.specs.Held.{is_block_of};
ghost use Rattle.host_memory.specs.State.{history, block_size_of};
ghost use Rattle.host_model.specs.declared.memory.MemEvent.TheVariants.{Lift};
ghost use Rattle.host_log.specs.History.{Adds};
ghost use Rattle.host_turn.specs.Seats.{IsOutside, IsSameSeat, book_id, seen_by};
ghost use Rattle.host_hand.specs.Buffers.{HasLetGo, IsAtBuffers, IsHeld, IsOfPool};
ghost use Rattle.host_log.specs.Growth.{HasGrown};

use crate::errand::Errand;
use host_block::{Bytes, Oom};
use host_frames::{Pages, Pool};
use host_memory::Memory;
use host_model::SharedBytes;
use host_turn::{Book, BookSeat, Story};
use std::alloc::Global;
use std::sync::Wait;

/// Pages that came out of a buffer, and the record that had closed it.
#[derive(Drop)]
pub(crate) struct LetGo {
    pub(crate) freed: Option<(u32, Pages)>,
    pub(crate) front: u64,
}

/// Room for one landing, and the bytes of one block to read into.
pub(crate) fn room_to_land(
    alloc: Global,
    memory: &mut Memory,
    errand: &Errand,
) -> Result<Bytes, Oom>
    ensures room { OnOk result (1 ≤ memory.new.moves) }
    ensures bytes { IfOk result (λ bytes. length bytes ≡ errand.now.size) }
    ensures same { memory.new ≡ record memory.old { moves = memory.new.moves } }
{
    memory.make_room(1)?;
    Bytes::zeroed(alloc, errand.size.bytes())
}

/// Lifts the page for step `k` of a write.
pub(crate) fn lift(
    alloc: Global,
    memory: &mut Memory,
    errand: &Errand,
    k: u32,
    page: u32,
) -> Result<SharedBytes, Oom>
    requires pinned { IsTrue (is_pinned_by errand.now.hand errand.now.index errand.now.request.vmoid
        (history memory.old)) }
    requires page { IsTrue (is_block_of errand.now.request.vmoid (history memory.old) page) }
    requires size { block_size_of memory.old ≡ errand.now.size }
    ensures lifted { IfOk result (λ piece.
        (length piece ≡ errand.now.size)
        × (memory.new.entries
        ≡ memory.old.entries
        ++ record {
          hand = errand.now.hand;
          what = Lift errand.now.index k errand.now.request.vmoid page piece;
        } ∷ [])) }
    ensures refused { OnErr result (memory.new.entries ≡ memory.old.entries) }
    ensures plan { memory.new.plan ≡ memory.old.plan }
    ensures adds { Adds (λ e. e.hand) errand.now.hand memory.old.entries memory.new.entries }
{
    memory.make_room(1)?;
    let piece = memory.lift(
        alloc,
        errand.hand,
        errand.index,
        k,
        errand.request.vmoid,
        page,
    )?;
    Ok(piece)
}

/// Lets go of the record's buffer, once all its steps are made.
pub(crate) fn let_go<R: Wait>(
    rt: &R,
    book: &Book<Memory>,
    seat: &mut BookSeat<Memory>,
    pool: &Pool,
    errand: &Errand,
) -> LetGo
    requires seat { IsAtBuffers (book_id book.now) errand.now.hand errand.now.size seat.old }
    requires pool { IsOfPool (pool_id pool.now) seat.old }
    requires held { IsHeld errand.now (seen_by seat.old) }
    ensures seat { IsSameSeat seat.old seat.new × IsOutside seat.new }
    ensures gone { HasLetGo errand.now (pool_id pool.now) result.front (seen_by seat.old)
        (seen_by seat.new) result.freed }
{
    let _pool = pool;
    let mut memory = book.enter_past(rt, seat, errand.memory_front);
    memory.vouch();
    let freed = memory.done(errand.hand, errand.request.vmoid, errand.index);
    let front = memory.length();
    book.leave(seat, memory);
    LetGo { freed, front }
}

/// How long the buffers' history is, past so many entries.
pub(crate) fn look<R: Wait>(
    rt: &R,
    book: &Book<Memory>,
    seat: &mut BookSeat<Memory>,
    errand: &Errand,
) -> u64
    requires { IsAtBuffers (book_id book.now) errand.now.hand errand.now.size seat.old }
    ensures seat { IsSameSeat seat.old seat.new × IsOutside seat.new }
    ensures seen { HasGrown (λ e. e.hand) errand.now.hand errand.now.memory_front result []
        (seen_by seat.old) (seen_by seat.new) }
    ensures length { result ≡ length (seen_by seat.new) }
{
    let _errand = errand;
    let memory = book.enter(rt, seat);
    let length = memory.length();
    book.leave(seat, memory);
    length
}
