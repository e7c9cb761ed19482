//! The buffers of a session as a state with a history.
ghost use Rattle.std.specs.Prelude.{◌≡◌, ℕ, ◌<◌, ◌≤◌, [], filter_map, length, max, IfOk, IsTrue};
ghost use Rattle.std.specs.Prelude.{OnOk, OnErr};
ghost use Rattle.std.specs.List.{list_all};
ghost use Rattle.host_frames.specs.Seats.{page_size, pool_id};
ghost use Rattle.host_memory.specs.Entries.{given_count};
ghost use Rattle.host_model.specs.Lists.{count};
ghost use Rattle.host_memory.specs.Held.{attachment_by, page_count_of};
ghost use Rattle.host_memory.specs.Numbers.{is_by_its_hand, is_numbered};
ghost use Rattle.host_memory.specs.Pins.{is_pin_for, pins_left};
ghost use Rattle.host_memory.specs.State.{admissions_of, client_of, history};

use crate::buffer::Buffer;
use crate::limits::{MemoryLimits, MemoryPlan};
use host_block::Oom;
use host_frames::Pool;
use host_log::SwitchLog;
use host_model::MemEntry;
use host_turn::Story;
use std::alloc::Global;
use std::marker::Model;
use std::snapshot::Snapshot;

/// The attached buffers of one session, with the history of what was done to them.
///
/// Contracts see what it was made with, its entries, and how many lifts and landings still fit.
#[derive(Drop)]
pub struct Memory {
    pub(crate) limits: MemoryLimits,
    pub(crate) pool: Snapshot<Pool>,
    pub(crate) entries: SwitchLog<MemEntry>,
    pub(crate) moves: u64,
    pub(crate) pins: u32,
    // Buffer 1 stands first.
    pub(crate) buffers: Vec<Buffer>,
}

impl Model for Memory {
    ghost use Rattle.std.specs.Prelude.{◌≡◌, ◌≤◌, vec_capacity};
    ghost use Rattle.host_frames.specs.Seats.{pool_id};
    ghost use Rattle.host_memory.specs.State.{MemoryState};
    ghost use Rattle.host_memory.specs.Kept.{IsMemoryKept};

    ghost Value = { MemoryState };

    ghost view = { λ m.
        record {
          plan = record { limits = m.limits; pool = pool_id m.pool.value };
          entries = m.entries.items;
          moves = m.moves;
        } };

    ghost invariant = { λ m.
        IsMemoryKept m.limits (pool_id m.pool.value) m.entries m.moves m.pins m.buffers.items
        × (m.limits.ids ≤ vec_capacity m.buffers) × (m.limits.ids ≤ 65535)
        × (m.limits.hands ≤ 4294967293) × (m.entries.kept ≡ m.limits.keeps) };
}

impl Story for Memory {
    type Entry = MemEntry;

    type Fixed = MemoryPlan;

    ghost story = { λ m. m.entries };

    ghost maker = { λ e. e.hand };

    ghost fixed = { λ m. m.plan };

    fn length(&self) -> u64 {
        self.entries.len()
    }
}

impl Memory {
    /// No buffers yet. It has `Oom` for an answer only for want of memory.
    pub fn new(alloc: Global, limits: MemoryLimits, pool: &Pool) -> Result<Memory, Oom>
        requires ids { limits.ids ≤ 65535 }
        requires hands { limits.hands ≤ 4294967293 }
        requires size { page_size pool.now ≡ limits.size }
        ensures { IfOk result (λ m. m ≡ record {
          plan = record { limits = limits; pool = pool_id pool.now };
          entries = [];
          moves = limits.moves;
        }) }
    {
        let Some(entry_count) = limits.entry_count() else {
            return Err(Oom);
        };
        let Ok(buffers) = Vec::with_capacity(alloc, limits.ids as usize) else {
            return Err(Oom);
        };
        let entries = SwitchLog::with_room(alloc, entry_count, limits.keeps)?;
        Ok(Memory {
            limits,
            pool: Snapshot::of(pool),
            entries,
            moves: limits.moves,
            pins: 0,
            buffers,
        })
    }

    /// How many lifts and landings still fit.
    pub fn moves(&self) -> u64
        ensures { result ≡ self.now.moves }
    {
        self.moves
    }

    /// Says what is true of every memory, for callers that have it from a book. It does nothing.
    pub fn vouch(&self)
        ensures numbers { IsTrue (list_all
            (is_numbered (client_of self.now) (admissions_of self.now)) self.now.entries) }
        ensures attached { (v : ℕ) → length (filter_map (attachment_by v) (history self.now)) ≤ 1 }
        ensures one_pin { (i : ℕ) → count (is_pin_for i) (history self.now) ≤ 1 }
        ensures done { IsTrue (list_all (is_by_its_hand (history self.now)) self.now.entries) }
        ensures pages { (v : ℕ) → page_count_of v (history self.now) ≤ 4294967295 }
    {
        let _ = &self.limits;
    }

    /// How many buffers were given.
    pub fn given(&self) -> u32
        ensures { result ≡ given_count (history self.now) }
    {
        self.buffers.len() as u32
    }

    /// How many pins have no done.
    pub fn pins(&self) -> u32
        ensures { result ≡ length (pins_left (history self.now)) }
    {
        self.pins
    }

    /// Makes room for `n` lifts and landings. It has `Oom` for an answer only for want of memory,
    /// and takes none where they fit already.
    pub fn make_room(&mut self, n: u64) -> Result<(), Oom>
        ensures ok { OnOk result (self.new ≡ record self.old { moves = max self.old.moves n }) }
        ensures full { OnErr result (self.old.moves < n) }
        ensures err { OnErr result (self.new ≡ self.old) }
    {
        if n <= self.moves {
            return Ok(());
        }
        let others = self.entries.spare() - self.moves;
        let Some(wanted) = others.checked_add(n) else {
            return Err(Oom);
        };
        self.entries.reserve(wanted)?;
        self.moves = n;
        Ok(())
    }
}
