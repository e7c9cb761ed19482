//! The pool: how it is made with its seats, and closed with all of them.
ghost use Rattle.std.specs.Prelude.{◌≡◌, ℕ, ◌+◌, ◌*◌, ◌^◌, ◌<◌, ◌≤◌, [], false, replicate};
ghost use Rattle.std.specs.Prelude.{slice_index_or, IfOk, vec_len, vec_capacity, All};
ghost use Rattle.std.specs.Slots.{slots_items, slots_filled, slots_len, IsFull};
ghost use Rattle.host_log.specs.Sums.{total};
ghost use Rattle.host_frames.specs.Homes.{IsBlankSlot, pages_at_home};

use crate::rule::{FrameRule, Opening};
use crate::seat::PoolSeat;
use crate::steps::{GatherSeat, MakeSeat};
use crate::view::View;
use atomic_table::{Closed, Refused, Seat, Table};
use host_block::{BlockSize, Oom};
use std::alloc::{AllocError, Global};

/// Frames, each with a page of one block, which seats claim and give back without a lock.
///
/// Pages that are dropped don't come back: their frames stay taken.
#[derive(Drop)]
pub struct Pool {
    pub(crate) table: Table<Option<Vec<u8>>, View, Opening, FrameRule, Global>,
    pub(crate) frames: u32,
    ghost counted: { frames ≡ table.shared.key.frames },
    ghost slots: { table.shared.table_id.slots ≡ frames },
    ghost words: { frames ≤ table.shared.table_id.words * 64 },
    ghost some: { (1 ≤ frames) × (1 ≤ table.shared.key.seats) },
}

impl Pool {
    ghost use Rattle.host_frames.specs.Moments.{IsIdle};
    ghost use Rattle.host_frames.specs.Claims.{SomeIsRefused, frames_in_claims};
    ghost use Rattle.host_frames.specs.Views.{idle_view};
    ghost use Rattle.host_frames.specs.Seats.{IsNewSeat, HasGathered, StandsForAll};
    ghost use Rattle.host_frames.specs.Seats.{SomeSeatRefused, pool_id, seat_pool, page_size};
    ghost use Rattle.host_frames.specs.Seats.{frame_count, seat_count, frames_asked, granted};
    ghost use Rattle.host_frames.specs.Seats.{given_back};

    /// A pool of blank pages, with its seats. It has `Oom` for an answer only for want of memory.
    pub fn new(
        alloc: Global,
        frames: u32,
        size: BlockSize,
        seats: u32,
    ) -> Result<(Pool, Vec<PoolSeat>), Oom>
        requires { (1 ≤ frames) × (1 ≤ seats) }
        ensures pool { IfOk result (λ r.
            (frame_count r.0 ≡ frames) × (page_size r.0 ≡ size) × (seat_count r.0 ≡ seats)) }
        ensures seats { IfOk result
            (λ r. (vec_len r.1 ≡ seats) × All (IsNewSeat (pool_id r.0)) r.1.items) }
    {
        let page_size = size.bytes();
        let Ok(mut all) = Vec::with_capacity(alloc, seats as usize) else {
            return Err(Oom);
        };
        let Ok(words) = clear_words(alloc, frames) else {
            return Err(Oom);
        };
        let Ok(slots) = blank_slots(alloc, frames, page_size) else {
            return Err(Oom);
        };
        let about = Opening {
            frames,
            page_size,
            seats,
        };
        match Table::new(alloc, words.as_slice(), slots, &about) {
            Ok((table, mut maker)) => {
                let pool = Pool { table, frames };
                pool.make_seats(&mut maker, seats, &mut all);
                Ok((pool, all))
            }
            Err(Refused { slots: _ }) => Err(Oom),
        }
    }

    fn make_seats(
        &self,
        maker: &mut Seat<Option<Vec<u8>>, View>,
        seats: u32,
        all: &mut Vec<PoolSeat>,
    )
        requires maker { (maker.old.table_id ≡ self.now.table.shared.table_id)
            × (maker.old.me ≡ (idle_view seats (page_size self.now), [])) }
        requires room { (all.old.items ≡ []) × (seats ≤ vec_capacity all.old) }
        ensures count { vec_len all.new ≡ seats }
        ensures seats { All (IsNewSeat (pool_id self.now)) all.new.items }
    {
        for _ in 0..seats {
            let seat = self.table.shared.split_seat::<MakeSeat>(maker);
            all.push_reserved(PoolSeat { seat });
        }
    }

    /// Ends the pool, and tells how many frames have their page at home.
    pub fn close(self, seats: Vec<PoolSeat>) -> u32
        requires all { vec_len seats ≡ seat_count self }
        requires seats { All (λ q. seat_pool q ≡ pool_id self) seats.items }
        ensures home { result + total granted seats.items
            ≡ frame_count self + total given_back seats.items }
        ensures refused { SomeSeatRefused (frame_count self) seats.items
            → frame_count self < total frames_asked seats.items }
    {
        let base = self.gather_all(seats);
        self.close_with(base)
    }

    // Ends the pool with the seat that stands for all seats.
    fn close_with(self, base: Seat<Option<Vec<u8>>, View>) -> u32
        requires table { base.table_id ≡ self.table.shared.table_id }
        requires all { base.me.0.share ≡ seat_count self }
        requires idle { (base.me.0.to_fetch ≡ []) × (base.me.0.slots_held ≡ []) × (base.me.1 ≡ []) }
        ensures home { result + base.me.0.granted ≡ frame_count self + base.me.0.given_back }
        ensures refused { SomeIsRefused (frame_count self) base.me.0.claims
            → frame_count self < frames_in_claims base.me.0.claims }
    {
        let Pool { table, frames: _ } = self;
        let mut closed = table.close_with(base);
        let home = count_home(&mut closed);
        closed.free();
        home
    }

    // The last seat of the list, which stands for all.
    fn gather_all(&self, mut seats: Vec<PoolSeat>) -> Seat<Option<Vec<u8>>, View>
        requires some { 0 < vec_len seats }
        requires seats { All (λ q. seat_pool q ≡ pool_id self.now) seats.items }
        ensures table { result.table_id ≡ self.now.table.shared.table_id }
        ensures gathered { StandsForAll seats.items result.me }
    {
        let PoolSeat { seat: mut base } = seats.pop().unwrap();
        self.gather_seats(&mut base, seats);
        base
    }

    // One seat takes in all others.
    fn gather_seats(&self, base: &mut Seat<Option<Vec<u8>>, View>, mut seats: Vec<PoolSeat>)
        requires base { (base.old.table_id ≡ self.now.table.shared.table_id) × IsIdle base.old.me }
        requires seats { All (λ q. seat_pool q ≡ pool_id self.now) seats.items }
        ensures same { (base.new.table_id ≡ base.old.table_id) × (base.new.id ≡ base.old.id) }
        ensures gathered { HasGathered base.old.me.0 seats.items base.new.me }
    {
        while let Some(PoolSeat { seat }) = seats.pop() {
            self.table.shared.join_seat::<GatherSeat>(base, seat);
        }
    }
}

// A word of clear bits for each 64 frames.
fn clear_words(alloc: Global, frames: u32) -> Result<Vec<u64>, AllocError>
    ensures { IfOk result (λ v. (frames ≤ vec_len v * 64) × (v.items ≡ replicate (vec_len v) 0)) }
{
    let words = (frames as usize + 63) / 64;
    Ok(vec![in alloc; 0u64; words]?)
}

fn blank_slots(
    alloc: Global,
    frames: u32,
    page_size: u32,
) -> Result<Vec<Option<Vec<u8>>>, AllocError>
    ensures { IfOk result (λ v. (vec_len v ≡ frames) × All (IsBlankSlot page_size) v.items) }
{
    let mut slots = Vec::with_capacity(alloc, frames as usize)?;
    for _ in 0..frames {
        let page = vec![in alloc; 0u8; page_size as usize]?;
        slots.push_reserved(Some(page));
    }
    Ok(slots)
}

// Each slot's value is taken. How many had a page?
fn count_home(closed: &mut Closed<Option<Vec<u8>>, Global>) -> u32
    requires full { IsFull closed.old.slots }
    requires few { slots_len closed.old.slots < 2 ^ 32 }
    ensures home { result ≡ pages_at_home (slots_items closed.old.slots) }
    ensures taken { (k : ℕ) → k < slots_len closed.new.slots
        → slice_index_or (slots_filled closed.new.slots) k false ≡ false }
{
    let mut home = 0;
    for i in 0..closed.slot_count() {
        let page = closed.take(i);
        if page.is_some() {
            home += 1;
        }
    }
    home
}
