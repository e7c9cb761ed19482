//! What the client does: it attaches buffers, fills them and looks at them.
ghost use Rattle.std.specs.Prelude.{◌≡◌, ◌+◌, ◌*◌, ◌<◌, ◌≤◌, [], ◌∷◌, ◌++◌, true, false, length};
ghost use Rattle.std.specs.Prelude.{replicate, Some, None, IsTrue, MatchOption};
ghost use Rattle.host_frames.specs.Seats.{contents, pages_pool};
ghost use Rattle.host_model.specs.declared.memory.MemEvent.TheVariants.{Attach, Fill, Show};
ghost use Rattle.host_model.specs.Pages.{found_by};
ghost use Rattle.host_log.specs.History.{Adds};
ghost use Rattle.host_memory.specs.Entries.{given_count, used_room};
ghost use Rattle.host_memory.specs.Held.{attachment_of, has_blocks, standing_in};
ghost use Rattle.host_memory.specs.State.{history, block_size_of, client_of};

use crate::buffer::Buffer;
use crate::memory::Memory;
use host_frames::Pages;
use host_model::{MemEntry, MemEvent};

impl Memory {
    /// Attaches a buffer after the client has sent `from` records, and tells its id.
    pub fn attach(&mut self, pages: Pages, from: u32) -> u16
        requires room { used_room (history self.old) + 3 ≤ self.old.plan.limits.room }
        requires ids { given_count (history self.old) < self.old.plan.limits.ids }
        requires some { 0 < length (contents pages) }
        requires pool { pages_pool pages ≡ self.old.plan.pool }
        requires blank { contents pages
            ≡ replicate (length (contents pages)) (replicate (block_size_of self.old) 0) }
        ensures id { result ≡ given_count (history self.old) + 1 }
        ensures entry { self.new
            ≡ record self.old {
              entries = self.old.entries
                  ++ record {
                    hand = client_of self.old;
                    what = Attach result (length (contents pages)) from;
                  } ∷ [];
            } }
        ensures adds { Adds (λ e. e.hand) (client_of self.old) self.old.entries self.new.entries }
    {
        let page_count = pages.len();
        let id = self.buffers.len() as u16 + 1;
        self.buffers.push_reserved(Buffer {
            page_count,
            from,
            pages: Some(pages),
            closer: None,
            pins: 0,
        });
        let what = MemEvent::Attach {
            id,
            pages: page_count,
            from,
        };
        self.entries.push(MemEntry {
            hand: self.limits.hands,
            what,
        });
        id
    }

    /// The pages of a buffer that stands for the record of that index: it was attached before that
    /// record was sent, no record before closed it, and its pages are here.
    pub fn standing(&self, id: u16, index: u32) -> Option<u32>
        ensures { result ≡ standing_in id index (history self.now) }
    {
        let buffer = &self.buffers[self.place(id)?];
        buffer.standing_for(index)
    }

    /// Writes one value into all bytes of these blocks, unless the buffer has no pages, or not all
    /// of these.
    pub fn fill(&mut self, id: u16, block: u32, count: u32, byte: u8) -> bool
        requires { used_room (history self.old) + 1 ≤ self.old.plan.limits.room }
        ensures answer { result ≡ has_blocks id (history self.old) block count }
        ensures done { IsTrue result
            → self.new
            ≡ record self.old {
              entries = self.old.entries
                  ++ record { hand = client_of self.old; what = Fill id block count byte } ∷ [];
            } }
        ensures not_done { result ≡ false → self.new ≡ self.old }
        ensures adds { Adds (λ e. e.hand) (client_of self.old) self.old.entries self.new.entries }
    {
        let Some(place) = self.place_of_blocks(id, block, count) else {
            return false;
        };
        self.buffers[place].fill(block, count, byte);
        let what = MemEvent::Fill {
            id,
            block,
            count,
            byte,
        };
        self.entries.push(MemEntry {
            hand: self.limits.hands,
            what,
        });
        true
    }

    /// Copies these blocks, unless the buffer has no pages, or not all of these.
    pub fn show(&mut self, id: u16, block: u32, count: u32, into: &mut [u8]) -> bool
        requires room { used_room (history self.old) + 1 ≤ self.old.plan.limits.room }
        requires into { length into.old ≡ count * block_size_of self.old }
        ensures answer { result ≡ has_blocks id (history self.old) block count }
        ensures bytes { IsTrue result
            → found_by (block_size_of self.old) (history self.old) (Show id block count)
            ≡ Some into.new }
        ensures done { IsTrue result
            → self.new
            ≡ record self.old {
              entries = self.old.entries
                  ++ record { hand = client_of self.old; what = Show id block count } ∷ [];
            } }
        ensures not_done { result ≡ false → (self.new ≡ self.old) × (into.new ≡ into.old) }
        ensures adds { Adds (λ e. e.hand) (client_of self.old) self.old.entries self.new.entries }
    {
        let Some(place) = self.place_of_blocks(id, block, count) else {
            return false;
        };
        self.buffers[place].show(block, count, self.limits.size.bytes(), into);
        let what = MemEvent::Show { id, block, count };
        self.entries.push(MemEntry {
            hand: self.limits.hands,
            what,
        });
        true
    }

    // Where a buffer stands, if it was given.
    fn place(&self, id: u16) -> Option<usize>
        ensures { MatchOption result
            (attachment_of id (history self.now) ≡ None)
            (λ i. (i + 1 ≡ id) × (i < given_count (history self.now))) }
    {
        let id = id as usize;
        if 1 <= id && id <= self.buffers.len() {
            Some(id - 1)
        } else {
            None
        }
    }

    // Where a buffer stands that holds these blocks.
    fn place_of_blocks(&self, id: u16, block: u32, count: u32) -> Option<usize>
        ensures { MatchOption result (has_blocks id (history self.now) block count ≡ false)
            (λ i.
            (i + 1 ≡ id) × (i < given_count (history self.now))
            × (has_blocks id (history self.now) block count ≡ true)
            × (block + count < 4294967296)) }
    {
        let place = self.place(id)?;
        if self.buffers[place].has_blocks(block, count) {
            Some(place)
        } else {
            None
        }
    }
}
