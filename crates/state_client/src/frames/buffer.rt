//! Pages as a buffer keeps them.
ghost use Rattle.std.specs.Prelude.{◌≡◌, ◌+◌, ◌<◌, [], ◌∷◌, length, replicate, slice_index_or};
ghost use Rattle.std.specs.Prelude.{slice_set, MatchResult, IfOk};
ghost use Rattle.host_frames.specs.Seats.{seat_pool, pages_pool, pool_id, page_size, frame_count};
ghost use Rattle.host_frames.specs.Seats.{contents, claims, given_back};
ghost use Rattle.host_frames.specs.declared.view.Claim.{Claim};
ghost use Rattle.host_frames.specs.Claims.{IsClaimRefused};

use host_block::Oom;
use host_frames::{NoFrames, Pages, Pool, PoolSeat};
use std::alloc::Global;

/// At least one page.
#[derive(Drop)]
pub struct Buffer {
    pub pages: Pages,
    ghost some: { 0 < length (contents pages) },
}

impl Buffer {
    /// A buffer of n blank pages, unless too few frames are free.
    pub fn attach(
        alloc: Global,
        pool: &Pool,
        seat: &mut PoolSeat,
        n: u32,
    ) -> Result<Result<Buffer, NoFrames>, Oom>
        requires some { 0 < n }
        requires pool { seat_pool seat.old ≡ pool_id pool.now }
        ensures seat { seat_pool seat.new ≡ pool_id pool.now }
        ensures claim { MatchResult result (λ r.
            (c : Claim) × (claims seat.new ≡ c ∷ claims seat.old) × (c.asked ≡ n)
            × MatchResult r (λ _. length c.won ≡ n) (λ _. IsClaimRefused (frame_count pool.now) c))
            (λ _. claims seat.new ≡ claims seat.old) }
        ensures buffer { IfOk result (λ r.
            IfOk r (λ b.
            (pages_pool b.pages ≡ pool_id pool.now)
            × (contents b.pages ≡ replicate n (replicate (page_size pool.now) 0)))) }
    {
        let mut pages = Pages::with_room(alloc, n)?;
        match pool.claim(seat, n, &mut pages) {
            Ok(()) => Ok(Ok(Buffer { pages })),
            Err(none) => Ok(Err(none)),
        }
    }

    /// Writes the whole page i.
    pub fn put(&mut self, i: u32, from: &[u8])
        requires index { i < length (contents self.old.pages) }
        requires long { length from.now ≡ length (slice_index_or (contents self.old.pages) i []) }
        ensures written { contents self.new.pages ≡ slice_set (contents self.old.pages) i from.now }
        ensures same { pages_pool self.new.pages ≡ pages_pool self.old.pages }
    {
        self.pages.page_mut(i).copy_from_slice(from);
    }

    /// Writes one value into all bytes.
    pub fn fill(&mut self, byte: u8)
        ensures { pages_pool self.new.pages ≡ pages_pool self.old.pages }
    {
        for i in 0..self.pages.len() {
            self.pages.page_mut(i).fill(byte);
        }
    }

    /// Gives the pages back.
    pub fn release(self, pool: &Pool, seat: &mut PoolSeat)
        requires pool { seat_pool seat.old ≡ pool_id pool.now }
        requires pages { pages_pool self.pages ≡ pool_id pool.now }
        ensures seat { seat_pool seat.new ≡ pool_id pool.now }
        ensures given_back { given_back seat.new
            ≡ given_back seat.old + length (contents self.pages) }
    {
        let Buffer { pages } = self;
        pool.give_back(seat, pages);
    }
}
