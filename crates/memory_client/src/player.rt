//! A player makes the calls of a memory that may be made.
ghost use Rattle.std.specs.Prelude.{◌≡◌, None, ◌+◌, ◌<◌, ◌≤◌, length, replicate, vec_capacity};
ghost use Rattle.std.specs.Prelude.{IsTrue, IfOk, IfSome};
ghost use Rattle.host_frames.specs.Seats.{contents, page_size, pages_pool, pool_id, seat_pool};
ghost use Rattle.host_model.specs.Lists.{count};
ghost use Rattle.host_memory.specs.Entries.{pin_count, used_room};
ghost use Rattle.host_memory.specs.Held.{closer_of, is_block_of};
ghost use Rattle.host_memory.specs.Pins.{is_pin_for, is_pinned_by};
ghost use Rattle.host_memory.specs.State.{history};
ghost use Rattle.memory_client.specs.Played.{IsPlayed};

use crate::done::{has_block, is_first_pin, is_open, is_pinned};
use host_block::{BlockSize, Oom};
use host_frames::{Pages, Pool, PoolSeat};
use host_memory::{Memory, MemoryLimits};
use host_model::{MemEvent, SharedBytes};
use std::alloc::Global;

/// How many pages each buffer has.
pub(crate) const PAGES: u32 = 3;

/// How many buffers are given at most.
const IDS: u32 = 1000;

/// How many entries are made at most.
const ENTRIES: u32 = 2000;

/// How many hands there are.
const HANDS: u32 = 4;

/// The hand that closes the session.
const LAST: u32 = 0;

/// A memory, and beside it the list of what was done to it, by which a player knows which calls it
/// may make.
#[derive(Drop)]
pub struct Player {
    pub(crate) memory: Memory,
    pub(crate) done: Vec<MemEvent>,
    ghost same: { history memory ≡ done.items },
    ghost room: { 2000 ≤ vec_capacity done },
    ghost limits: { IsPlayed memory.plan.limits },
}

/// A record that has pinned a buffer, and the hand that carries it out.
#[derive(Clone, Copy, Debug, PartialEq, Eq)]
pub struct Carried {
    pub hand: u32,
    pub index: u32,
    pub id: u16,
}

/// Claims the pages of a buffer, unless too few frames are free.
fn claimed(alloc: Global, pool: &Pool, seat: &mut PoolSeat) -> Result<Option<Pages>, Oom>
    requires { seat_pool seat.old ≡ pool_id pool.now }
    ensures seat { seat_pool seat.new ≡ pool_id pool.now }
    ensures pages { IfOk result (λ o.
        IfSome o (λ p.
        (contents p ≡ replicate 3 (replicate (page_size pool.now) 0))
        × (pages_pool p ≡ pool_id pool.now))) }
{
    let mut pages = Pages::with_room(alloc, PAGES)?;
    if pool.claim(seat, PAGES, &mut pages).is_ok() {
        Ok(Some(pages))
    } else {
        Ok(None)
    }
}

impl Player {
    /// A player of a memory with room for so many entries.
    pub fn new(alloc: Global, size: BlockSize, pool: &Pool) -> Result<Player, Oom>
        requires { (page_size pool.now ≡ size) × (size ≡ 512) }
        ensures { IfOk result (λ p. p.memory.plan.pool ≡ pool_id pool.now) }
    {
        let Ok(done) = Vec::with_capacity(alloc, ENTRIES as usize) else {
            return Err(Oom);
        };
        let limits = MemoryLimits {
            size,
            ids: IDS,
            room: 6000,
            records: ENTRIES,
            moves: 1,
            hands: HANDS,
            keeps: true,
        };
        let memory = Memory::new(alloc, limits, pool)?;
        Ok(Player { memory, done })
    }

    /// The pages of a buffer that stands for a record.
    pub fn standing(&self, id: u16, index: u32) -> Option<u32> {
        self.memory.standing(id, index)
    }

    // Whether two entries more fit.
    fn has_room(&self) -> bool
        ensures fits { IsTrue result → length self.now.done.items + 2 ≤ vec_capacity self.now.done }
        ensures used { IsTrue result
            → used_room (history self.now.memory) + 3 ≤ self.now.memory.plan.limits.room }
        ensures pins { IsTrue result
            → pin_count (history self.now.memory) < self.now.memory.plan.limits.records }
    {
        self.done.len() + 2 <= ENTRIES as usize
    }

    // Whether no record closed the buffer.
    fn is_open(&self, id: u16) -> bool
        ensures { IsTrue result → closer_of id (history self.now.memory) ≡ None }
    {
        is_open(&self.done, id)
    }

    // Whether the record has pinned nothing.
    fn is_first_pin(&self, index: u32) -> bool
        ensures { IsTrue result → count (is_pin_for index) (history self.now.memory) ≡ 0 }
    {
        is_first_pin(&self.done, index)
    }

    // Whether the record has pinned its buffer.
    fn is_pinned(&self, carried: &Carried) -> bool
        ensures { IsTrue result
            → IsTrue (is_pinned_by carried.now.hand carried.now.index carried.now.id
            (history self.now.memory)) }
    {
        is_pinned(&self.done, carried.hand, carried.index, carried.id)
    }

    // Whether the buffer was attached with this block.
    fn has_block(&self, id: u16, block: u32) -> bool
        ensures { result ≡ is_block_of id (history self.now.memory) block }
    {
        has_block(&self.done, id, block)
    }

    /// Attaches a buffer, where an id and pages are left.
    pub fn attach(
        &mut self,
        alloc: Global,
        pool: &Pool,
        seat: &mut PoolSeat,
        from: u32,
    ) -> Result<Option<u16>, Oom>
        requires pool { (self.old.memory.plan.pool ≡ pool_id pool.now)
            × (page_size pool.now ≡ 512) }
        requires seat { seat_pool seat.old ≡ pool_id pool.now }
        ensures plan { self.new.memory.plan ≡ self.old.memory.plan }
        ensures seat { seat_pool seat.new ≡ pool_id pool.now }
    {
        if self.memory.given() >= IDS || !self.has_room() {
            return Ok(None);
        }
        let Some(pages) = claimed(alloc, pool, seat)? else {
            return Ok(None);
        };
        let id = self.memory.attach(pages, from);
        self.done.push_reserved(MemEvent::Attach {
            id,
            pages: PAGES,
            from,
        });
        Ok(Some(id))
    }

    /// Fills blocks of a buffer.
    pub fn fill(&mut self, id: u16, block: u32, count: u32, byte: u8) -> bool
        ensures plan { self.new.memory.plan ≡ self.old.memory.plan }
    {
        if !self.has_room() {
            return false;
        }
        let filled = self.memory.fill(id, block, count, byte);
        if filled {
            self.done.push_reserved(MemEvent::Fill {
                id,
                block,
                count,
                byte,
            });
        }
        filled
    }

    /// Copies blocks of a buffer, into as many bytes.
    pub fn show(&mut self, id: u16, block: u32, count: u32, into: &mut [u8]) -> bool
        ensures plan { self.new.memory.plan ≡ self.old.memory.plan }
    {
        if !self.has_room() || into.len() as u64 != count as u64 * 512 {
            return false;
        }
        let shown = self.memory.show(id, block, count, into);
        if shown {
            self.done.push_reserved(MemEvent::Show { id, block, count });
        }
        shown
    }

    /// Pins a buffer for a record, where it stands for that and is open. It answers whether it did.
    pub fn pin(&mut self, id: u16, index: u32, by: u32) -> bool
        ensures plan { self.new.memory.plan ≡ self.old.memory.plan }
    {
        let stands = self.memory.standing(id, index).is_some();
        if !stands || !self.has_room() || !self.is_open(id) || !self.is_first_pin(index) {
            return false;
        }
        self.memory.pin(id, index, by);
        self.done.push_reserved(MemEvent::Pin { index, id, by });
        true
    }

    /// Copies a page out, for a record that has pinned its buffer.
    pub fn lift(
        &mut self,
        alloc: Global,
        record: &Carried,
        block: u32,
        into: &mut [u8],
    ) -> Result<bool, Oom>
        requires { length into.old ≡ 512 }
        ensures plan { self.new.memory.plan ≡ self.old.memory.plan }
    {
        let Carried { hand, index, id } = *record;
        self.memory.make_room(1)?;
        if !self.has_room() || !self.is_pinned(record) || !self.has_block(id, block) {
            return Ok(false);
        }
        let bytes = self.memory.lift(alloc, hand, index, 0, id, block)?;
        into.copy_from_slice(bytes.as_slice());
        self.done.push_reserved(MemEvent::Lift {
            index,
            k: 0,
            id,
            block,
            bytes,
        });
        Ok(true)
    }

    /// Writes a page, for a record that has pinned its buffer.
    pub fn land(
        &mut self,
        alloc: Global,
        record: &Carried,
        block: u32,
        from: &[u8],
    ) -> Result<bool, Oom>
        requires { length from.now ≡ 512 }
        ensures plan { self.new.memory.plan ≡ self.old.memory.plan }
    {
        let Carried { hand, index, id } = *record;
        let keep = SharedBytes::copied(alloc, from)?;
        let bytes = keep.share()?;
        self.memory.make_room(1)?;
        if !self.has_room() || !self.is_pinned(record) || !self.has_block(id, block) {
            return Ok(false);
        }
        self.memory.land(hand, index, 0, id, block, keep);
        self.done.push_reserved(MemEvent::Land {
            index,
            k: 0,
            id,
            block,
            bytes,
        });
        Ok(true)
    }

    /// Lets a record go of its buffer. Where its pages leave, it tells which record closed it.
    pub fn let_go(
        &mut self,
        pool: &Pool,
        seat: &mut PoolSeat,
        record: &Carried,
    ) -> Option<Option<u32>>
        requires pool { self.old.memory.plan.pool ≡ pool_id pool.now }
        requires seat { seat_pool seat.old ≡ pool_id pool.now }
        ensures plan { self.new.memory.plan ≡ self.old.memory.plan }
        ensures seat { seat_pool seat.new ≡ pool_id pool.now }
    {
        let Carried { hand, index, id } = *record;
        if !self.has_room() || !self.is_pinned(record) {
            return None;
        }
        let left = self.memory.done(hand, id, index);
        self.done.push_reserved(MemEvent::Done { index, id });
        match left {
            Some((closer, pages)) => {
                self.done.push_reserved(MemEvent::Release { id });
                pool.give_back(seat, pages);
                Some(Some(closer))
            }
            None => Some(None),
        }
    }

    /// Closes a buffer for a record, where it stands for that and is open. It tells whether its
    /// pages left.
    pub fn close(&mut self, pool: &Pool, seat: &mut PoolSeat, id: u16, index: u32) -> Option<bool>
        requires pool { self.old.memory.plan.pool ≡ pool_id pool.now }
        requires seat { seat_pool seat.old ≡ pool_id pool.now }
        ensures plan { self.new.memory.plan ≡ self.old.memory.plan }
        ensures seat { seat_pool seat.new ≡ pool_id pool.now }
    {
        let stands = self.memory.standing(id, index).is_some();
        if !stands || !self.has_room() || !self.is_open(id) {
            return None;
        }
        let left = self.memory.close(id, index);
        self.done.push_reserved(MemEvent::Close { index, id });
        match left {
            Some(pages) => {
                self.done.push_reserved(MemEvent::Release { id });
                pool.give_back(seat, pages);
                Some(true)
            }
            None => Some(false),
        }
    }

    /// Lets all pages go that are left, where no record holds a buffer. It tells how many buffers
    /// had some, and how many entries there are.
    pub fn finish(self, pool: &Pool, seat: &mut PoolSeat) -> Option<(u32, u64)>
        requires pool { self.memory.plan.pool ≡ pool_id pool.now }
        requires seat { seat_pool seat.old ≡ pool_id pool.now }
        ensures seat { seat_pool seat.new ≡ pool_id pool.now }
    {
        let Player {
            mut memory,
            done: _,
        } = self;
        let dropped = drop_all(&mut memory, pool, seat);
        if memory.pins() > 0 || memory.drop_next(LAST).is_some() {
            return None;
        }
        Some((dropped, memory.into_entries().len()))
    }
}

fn drop_all(memory: &mut Memory, pool: &Pool, seat: &mut PoolSeat) -> u32
    requires pool { memory.old.plan.pool ≡ pool_id pool.now }
    requires seat { seat_pool seat.old ≡ pool_id pool.now }
    ensures seat { seat_pool seat.new ≡ pool_id pool.now }
{
    for dropped in 0..IDS {
        if memory.pins() > 0 {
            return dropped;
        }
        let Some(pages) = memory.drop_next(LAST) else {
            return dropped;
        };
        pool.give_back(seat, pages);
    }
    IDS
}
