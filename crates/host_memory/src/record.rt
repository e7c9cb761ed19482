//! What records do: they pin a buffer, move pages, and let go of it.
ghost use Rattle.std.specs.Prelude.{◌≡◌, ◌↔◌, ◌+◌, ◌<◌, ◌≤◌, true, [], ◌∷◌, ◌++◌, length, IsTrue};
ghost use Rattle.std.specs.Prelude.{IsSome, IfSome, IfOk, OnOk, OnErr, MatchOption, option_map};
ghost use Rattle.host_model.specs.Lists.{count};
ghost use Rattle.host_model.specs.Pages.{page_at};
ghost use Rattle.host_model.specs.declared.memory.MemEvent.TheVariants.{Pin, Lift, Land, Done};
ghost use Rattle.host_model.specs.declared.memory.MemEvent.TheVariants.{Release};
ghost use Rattle.host_model.specs.declared.memory.MemEvent.TheVariants as mem;
ghost use Rattle.host_log.specs.History.{Adds};
ghost use Rattle.host_memory.specs.Entries.{pin_count};
ghost use Rattle.host_memory.specs.Held.{closer_of, holds_pages, is_block_of, page_count_of};
ghost use Rattle.host_memory.specs.Held.{standing_in};
ghost use Rattle.host_memory.specs.PagesHeld.{ArePagesOf};
ghost use Rattle.host_memory.specs.Pins.{closer_due, is_pin_for, is_pinned_by, pins_on};
ghost use Rattle.host_memory.specs.State.{history, block_size_of, admissions_of};

use crate::memory::Memory;
use host_block::Oom;
use host_frames::Pages;
use host_model::{MemEntry, MemEvent, SharedBytes};
use std::alloc::Global;

impl Memory {
    /// The record holds the buffer until its `done`. The hand `by` is to carry it out.
    pub fn pin(&mut self, id: u16, index: u32, by: u32)
        requires room { pin_count (history self.old) < self.old.plan.limits.records }
        requires stands { IsSome (standing_in id index (history self.old)) }
        requires open { closer_of id (history self.old) ≡ None }
        requires first { count (is_pin_for index) (history self.old) ≡ 0 }
        ensures entry { self.new
            ≡ record self.old {
              entries = self.old.entries
                  ++ record { hand = admissions_of self.old; what = Pin index id by } ∷ [];
            } }
        ensures adds { Adds (λ e. e.hand) (admissions_of self.old) self.old.entries
            self.new.entries }
    {
        self.buffers[id as usize - 1].pins += 1;
        self.pins += 1;
        self.entries.push(MemEntry {
            hand: self.limits.hands + 1,
            what: MemEvent::Pin { index, id, by },
        });
    }

    /// Copies a page out, for step `k` of a write. The entry shares the bytes. It has `Oom` for an
    /// answer only for want of memory.
    pub fn lift(
        &mut self,
        alloc: Global,
        hand: u32,
        index: u32,
        k: u32,
        id: u16,
        block: u32,
    ) -> Result<SharedBytes, Oom>
        requires room { 1 ≤ self.old.moves }
        requires pinned { IsTrue (is_pinned_by hand index id (history self.old)) }
        requires block { IsTrue (is_block_of id (history self.old) block) }
        ensures bytes { IfOk result (λ piece.
            (piece ≡ page_at (block_size_of self.old) (history self.old) id block)
            × (length piece ≡ block_size_of self.old)) }
        ensures entry { IfOk result (λ piece.
            self.new.entries
            ≡ self.old.entries ++ record { hand = hand; what = Lift index k id block piece } ∷ []) }
        ensures rest { OnOk result
            ((self.new.plan ≡ self.old.plan) × (self.new.moves + 1 ≡ self.old.moves)) }
        ensures refused { OnErr result (self.new ≡ self.old) }
        ensures adds { Adds (λ e. e.hand) hand self.old.entries self.new.entries }
    {
        let piece = SharedBytes::copied(alloc, self.buffers[id as usize - 1].page(block))?;
        let bytes = piece.share()?;
        self.moves -= 1;
        self.entries.push(MemEntry {
            hand,
            what: MemEvent::Lift {
                index,
                k,
                id,
                block,
                bytes,
            },
        });
        Ok(piece)
    }

    /// Copies into a page what step `k` of a read gave.
    pub fn land(&mut self, hand: u32, index: u32, k: u32, id: u16, block: u32, keep: SharedBytes)
        requires room { 1 ≤ self.old.moves }
        requires pinned { IsTrue (is_pinned_by hand index id (history self.old)) }
        requires block { IsTrue (is_block_of id (history self.old) block) }
        requires long { length keep ≡ block_size_of self.old }
        ensures entry { self.new.entries
            ≡ self.old.entries ++ record { hand = hand; what = Land index k id block keep } ∷ [] }
        ensures rest { (self.new.plan ≡ self.old.plan) × (self.new.moves + 1 ≡ self.old.moves) }
        ensures adds { Adds (λ e. e.hand) hand self.old.entries self.new.entries }
    {
        self.buffers[id as usize - 1].copy_in(block, keep.as_slice());
        self.moves -= 1;
        self.entries.push(MemEntry {
            hand,
            what: MemEvent::Land {
                index,
                k,
                id,
                block,
                bytes: keep,
            },
        });
    }

    /// The record lets go of the buffer. The last one to let go of a closed buffer gets its pages,
    /// with the index of the record that closed it.
    pub fn done(&mut self, hand: u32, id: u16, index: u32) -> Option<(u32, Pages)>
        requires { IsTrue (is_pinned_by hand index id (history self.old)) }
        ensures answer { option_map (λ r. r.0) result
            ≡ closer_due id (history self.old ++ Done index id ∷ []) }
        ensures pages { IfSome result (λ r.
            ArePagesOf self.old.plan.pool (block_size_of self.old) (history self.old) id
            (page_count_of id (history self.old)) r.1) }
        ensures entries { MatchOption result (self.new
            ≡ record self.old {
              entries = self.old.entries
                  ++ record { hand = hand; what = Done index id } ∷ [];
            }) (λ _.
            self.new
            ≡ record self.old {
              entries = self.old.entries
                  ++ record { hand = hand; what = Done index id }
                  ∷ record { hand = hand; what = Release id } ∷ [];
            }) }
        ensures adds { Adds (λ e. e.hand) hand self.old.entries self.new.entries }
    {
        self.unpin(hand, id, index);
        let closer = self.closer_where_free(id)?;
        let pages = self.release(hand, id);
        Some((closer, pages))
    }

    /// The record closes the buffer. Where no pin is left, its pages leave.
    pub fn close(&mut self, id: u16, index: u32) -> Option<Pages>
        requires stands { IsSome (standing_in id index (history self.old)) }
        requires open { closer_of id (history self.old) ≡ None }
        ensures answer { IsSome result ↔ (pins_on id (history self.old) ≡ 0) }
        ensures pages { IfSome result (λ p.
            ArePagesOf self.old.plan.pool (block_size_of self.old) (history self.old) id
            (page_count_of id (history self.old)) p) }
        ensures entries { MatchOption result (self.new
            ≡ record self.old {
              entries = self.old.entries
                  ++ record { hand = admissions_of self.old; what = mem.Close index id } ∷ [];
            })
            (λ _.
            self.new
            ≡ record self.old {
              entries = self.old.entries
                  ++ record { hand = admissions_of self.old; what = mem.Close index id }
                  ∷ record { hand = admissions_of self.old; what = Release id } ∷ [];
            }) }
        ensures adds { Adds (λ e. e.hand) (admissions_of self.old) self.old.entries
            self.new.entries }
    {
        let hand = self.limits.hands + 1;
        self.mark_closed(hand, id, index);
        self.closer_where_free(id)?;
        Some(self.release(hand, id))
    }

    // Adds the `Done` of a record.
    fn unpin(&mut self, hand: u32, id: u16, index: u32)
        requires { IsTrue (is_pinned_by hand index id (history self.old)) }
        ensures held { holds_pages id (history self.old) ≡ true }
        ensures entry { self.new
            ≡ record self.old {
              entries = self.old.entries
                  ++ record { hand = hand; what = Done index id } ∷ [];
            } }
    {
        self.buffers[id as usize - 1].pins -= 1;
        self.pins -= 1;
        self.entries.push(MemEntry {
            hand,
            what: MemEvent::Done { index, id },
        });
    }

    // Adds the `Close` of a record.
    fn mark_closed(&mut self, hand: u32, id: u16, index: u32)
        requires number { hand ≡ admissions_of self.old }
        requires stands { IsSome (standing_in id index (history self.old)) }
        requires open { closer_of id (history self.old) ≡ None }
        ensures { self.new
            ≡ record self.old {
              entries = self.old.entries
                  ++ record { hand = hand; what = mem.Close index id } ∷ [];
            } }
    {
        self.buffers[id as usize - 1].closer = Some(index);
        self.entries.push(MemEntry {
            hand,
            what: MemEvent::Close { index, id },
        });
    }

    // The record that closed a buffer on which no pin is left.
    fn closer_where_free(&self, id: u16) -> Option<u32>
        requires { holds_pages id (history self.now) ≡ true }
        ensures { result ≡ closer_due id (history self.now) }
    {
        self.buffers[id as usize - 1].closer_where_free()
    }
}
