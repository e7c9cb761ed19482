//! A type that holds a seat.
ghost use Rattle.std.specs.Prelude.{◌≡◌, ◌<◌};
ghost use Rattle.host_frames.specs.Seats.{seat_pool, pool_id};

use crate::frames::buffer::Buffer;
use host_frames::{NoFrames, Pages, Pool, PoolSeat};
use std::alloc::Global;

/// A seat at a pool, with a mark of its own.
#[derive(Drop)]
pub struct Worker {
    pub seat: PoolSeat,
    pub mark: u8,
}

impl Worker {
    /// Claims n pages, marks them and gives them back. Were they blank at first, and did they have
    /// the mark at the end? True as well where too few frames are free, and false for want of
    /// memory.
    pub fn work(&mut self, alloc: Global, pool: &Pool, n: u32) -> bool
        requires some { 0 < n }
        requires pool { seat_pool self.old.seat ≡ pool_id pool.now }
        ensures pool { seat_pool self.new.seat ≡ pool_id pool.entry.now }
        ensures mark { self.new.mark ≡ self.old.mark }
    {
        match Buffer::attach(alloc, pool, &mut self.seat, n) {
            Ok(Ok(mut buffer)) => {
                let blank = is_filled(&buffer.pages, 0);
                buffer.fill(self.mark);
                let marked = is_filled(&buffer.pages, self.mark);
                buffer.release(pool, &mut self.seat);
                blank && marked
            }
            Ok(Err(NoFrames)) => true,
            Err(_) => false,
        }
    }
}

// Has each byte of the pages this value?
fn is_filled(pages: &Pages, byte: u8) -> bool {
    for i in 0..pages.len() {
        if pages.page(i).iter().any(|b| *b != byte) {
            return false;
        }
    }
    true
}
