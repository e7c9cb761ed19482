//! How pages leave, and how a memory ends.
ghost use Rattle.std.specs.Prelude.{◌≡◌, ℕ, [], ◌∷◌, ◌++◌, true, length, Some, None, IsTrue};
ghost use Rattle.std.specs.Prelude.{MatchOption};
ghost use Rattle.host_model.specs.Lists.{all_with_before, count};
ghost use Rattle.host_model.specs.Pages.{lifts_page};
ghost use Rattle.host_model.specs.Releases.{comes_before_release, pins_before_close, is_release_of};
ghost use Rattle.host_model.specs.declared.memory.MemEvent.TheVariants.{Release};
ghost use Rattle.host_log.specs.History.{Adds};
ghost use Rattle.host_memory.specs.Held.{first_held, holds_pages, is_given_by, page_count_of};
ghost use Rattle.host_memory.specs.PagesHeld.{ArePagesOf};
ghost use Rattle.host_memory.specs.Pins.{pins_left, pins_on};
ghost use Rattle.host_memory.specs.State.{history, block_size_of};

use crate::memory::Memory;
use host_frames::Pages;
use host_log::SwitchLog;
use host_model::{MemEntry, MemEvent};

impl Memory {
    /// The pages of the first buffer that holds some leave.
    pub fn drop_next(&mut self, hand: u32) -> Option<Pages>
        requires { length (pins_left (history self.old)) ≡ 0 }
        ensures none { MatchOption result (first_held (history self.old) ≡ None) (λ _. Unit {0}) }
        ensures entries { MatchOption result (self.new ≡ self.old) (λ p.
            (v : ℕ) × (first_held (history self.old) ≡ Some v)
            × ArePagesOf self.old.plan.pool (block_size_of self.old) (history self.old) v
            (page_count_of v (history self.old)) p
            × (self.new
            ≡ record self.old
            { entries = self.old.entries ++ record { hand = hand; what = Release v } ∷ [] })) }
        ensures adds { Adds (λ e. e.hand) hand self.old.entries self.new.entries }
    {
        let id = self.first_held()?;
        Some(self.release(hand, id))
    }

    /// The history.
    pub fn into_entries(self) -> SwitchLog<MemEntry>
        requires { first_held (history self) ≡ None }
        ensures entries { result.items ≡ self.entries }
        ensures kept { result.kept ≡ self.plan.limits.keeps }
        ensures once { (v : ℕ)
            → count (is_release_of v) (history self) ≡ count (is_given_by v) (history self) }
        ensures last { IsTrue (all_with_before comes_before_release (history self)) }
        ensures closes { IsTrue (all_with_before pins_before_close (history self)) }
        ensures lifts { IsTrue (all_with_before (lifts_page (block_size_of self)) (history self)) }
    {
        self.entries
    }

    // The first buffer that holds pages.
    fn first_held(&self) -> Option<u16>
        ensures { result ≡ first_held (history self.now) }
    {
        let place = self.buffers.iter().position(|b| b.holds_pages())?;
        Some(place as u16 + 1)
    }

    // The pages of a buffer on which no pin is left leave.
    pub(crate) fn release(&mut self, hand: u32, id: u16) -> Pages
        requires held { holds_pages id (history self.old) ≡ true }
        requires free { pins_on id (history self.old) ≡ 0 }
        ensures pages { ArePagesOf self.old.plan.pool (block_size_of self.old) (history self.old) id
            (page_count_of id (history self.old)) result }
        ensures entry { self.new
            ≡ record self.old
            { entries = self.old.entries ++ record { hand = hand; what = Release id } ∷ [] } }
    {
        let Some(pages) = self.buffers[id as usize - 1].pages.take() else {
            unreachable!()
        };
        self.entries.push(MemEntry {
            hand,
            what: MemEvent::Release { id },
        });
        pages
    }
}
