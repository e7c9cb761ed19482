//! Random calls of a memory beside a plain model.
ghost use Rattle.std.specs.Prelude.{◌≡◌};
ghost use Rattle.host_frames.specs.Seats.{page_size, pool_id, seat_pool};

use crate::plain::Plain;
use crate::player::{Carried, Player};
use host_block::{BlockSize, Oom};
use host_frames::{Pages, Pool, PoolSeat};
use std::alloc::Global;

/// How many frames the pool of a game has.
const FRAMES: u32 = 20;

/// How many buffers that is enough for.
const BUFFERS: usize = 6;

/// How many calls did as the plain model, and how many did not.
#[derive(Clone, Copy, Debug, PartialEq, Eq)]
pub struct Tally {
    pub same: u64,
    pub other: u64,
}

// The next number of a sequence without a pattern that a memory would follow.
fn drawn(x: u64) -> u64 {
    x.wrapping_mul(6364136223846793005)
        .wrapping_add(1442695040888963407)
}

// A memory, the plain model, the records that hold a buffer, and the next record.
#[derive(Drop)]
struct Game {
    player: Player,
    plain: Plain,
    held: Vec<Carried>,
    next: u32,
}

// The calls of a game each tell whether the memory did as the plain model.
impl Game {
    fn attach_one(&mut self, alloc: Global, pool: &Pool, seat: &mut PoolSeat) -> Result<bool, Oom>
        requires pool { (self.old.player.memory.plan.pool ≡ pool_id pool.now)
            × (page_size pool.now ≡ 512) }
        requires seat { seat_pool seat.old ≡ pool_id pool.now }
        ensures plan { self.new.player.memory.plan ≡ self.old.player.memory.plan }
        ensures seat { seat_pool seat.new ≡ pool_id pool.now }
    {
        let full = self.plain.here() >= BUFFERS;
        match self.player.attach(alloc, pool, seat, self.next)? {
            Some(id) => {
                self.plain.attach(self.next)?;
                Ok(!full && id as usize == self.plain.given())
            }
            None => Ok(full),
        }
    }

    fn fill_one(&mut self, id: u16, x: u64) -> bool
        ensures { self.new.player.memory.plan ≡ self.old.player.memory.plan }
    {
        let block = (x % 4) as u32;
        let count = (x / 4 % 4) as u32;
        let byte = (x / 16 % 256) as u8;
        let filled = self.player.fill(id, block, count, byte);
        let can = self.plain.has_blocks(id, block, count).is_some();
        if filled {
            self.plain.fill(id, block, count, byte);
        }
        filled == can
    }

    fn show_one(&mut self, id: u16, x: u64) -> bool
        ensures { self.new.player.memory.plan ≡ self.old.player.memory.plan }
    {
        let block = (x % 4) as u32;
        let count = (x / 4 % 4) as u32;
        let mut into = [0u8; 1536];
        let seen = &mut into[..count as usize * 512];
        let shown = self.player.show(id, block, count, seen);
        match self.plain.has_blocks(id, block, count) {
            Some(fills) => {
                shown
                    && seen
                        .chunks_exact(512)
                        .zip(fills.iter().skip(block as usize))
                        .all(|(page, fill)| page.iter().all(|b| *b == *fill))
            }
            None => !shown,
        }
    }

    fn pin_one(&mut self, id: u16, hand: u32) -> Result<bool, Oom>
        ensures { self.new.player.memory.plan ≡ self.old.player.memory.plan }
    {
        let index = self.next;
        let stands = self.player.standing(id, index) == self.plain.standing(id, index);
        let can = self.plain.is_open_for(id, index);
        let pinned = self.player.pin(id, index, hand);
        if pinned {
            self.plain.pin(id);
            self.next = index.wrapping_add(1);
            if self.held.push(Carried { hand, index, id }).is_err() {
                return Err(Oom);
            }
        }
        Ok(stands && pinned == can)
    }

    fn lift_one(&mut self, alloc: Global, record: Carried, block: u32) -> Result<bool, Oom>
        ensures { self.new.player.memory.plan ≡ self.old.player.memory.plan }
    {
        let mut into = [0u8; 512];
        let lifted = self.player.lift(alloc, &record, block, &mut into)?;
        match self.plain.page(record.id, block) {
            Some(fill) => Ok(lifted && into.iter().all(|b| *b == fill)),
            None => Ok(!lifted),
        }
    }

    fn land_one(
        &mut self,
        alloc: Global,
        record: Carried,
        block: u32,
        byte: u8,
    ) -> Result<bool, Oom>
        ensures { self.new.player.memory.plan ≡ self.old.player.memory.plan }
    {
        let from = [byte; 512];
        let landed = self.player.land(alloc, &record, block, &from)?;
        let can = self.plain.page(record.id, block).is_some();
        if landed {
            self.plain.fill(record.id, block, 1, byte);
        }
        Ok(landed == can)
    }

    fn let_go_one(&mut self, pool: &Pool, seat: &mut PoolSeat) -> bool
        requires pool { self.old.player.memory.plan.pool ≡ pool_id pool.now }
        requires seat { seat_pool seat.old ≡ pool_id pool.now }
        ensures plan { self.new.player.memory.plan ≡ self.old.player.memory.plan }
        ensures seat { seat_pool seat.new ≡ pool_id pool.now }
    {
        match self.held.pop() {
            Some(record) => {
                let left = self.player.let_go(pool, seat, &record);
                left == Some(self.plain.let_go(record.id))
            }
            None => true,
        }
    }

    fn close_one(&mut self, pool: &Pool, seat: &mut PoolSeat, id: u16) -> bool
        requires pool { self.old.player.memory.plan.pool ≡ pool_id pool.now }
        requires seat { seat_pool seat.old ≡ pool_id pool.now }
        ensures plan { self.new.player.memory.plan ≡ self.old.player.memory.plan }
        ensures seat { seat_pool seat.new ≡ pool_id pool.now }
    {
        let index = self.next;
        let can = self.plain.is_open_for(id, index);
        match self.player.close(pool, seat, id, index) {
            Some(left) => {
                self.next = index.wrapping_add(1);
                can && left == self.plain.close(id, index)
            }
            None => !can,
        }
    }

    // One call, told by a drawn number.
    fn call(&mut self, alloc: Global, pool: &Pool, seat: &mut PoolSeat, x: u64) -> Result<bool, Oom>
        requires pool { (self.old.player.memory.plan.pool ≡ pool_id pool.now)
            × (page_size pool.now ≡ 512) }
        requires seat { seat_pool seat.old ≡ pool_id pool.now }
        ensures plan { self.new.player.memory.plan ≡ self.old.player.memory.plan }
        ensures seat { seat_pool seat.new ≡ pool_id pool.now }
    {
        let given = (self.plain.given() as u64).min(1000);
        let id = (given + 1 - (x >> 40) % 12 % (given + 1)) as u16;
        let y = x >> 20;
        let block = (y % 4) as u32;
        let last = self.held.last().copied();
        match ((x >> 56) % 16, last) {
            (0..=1, _) => self.attach_one(alloc, pool, seat),
            (2..=4, _) => Ok(self.fill_one(id, y)),
            (5..=7, _) => Ok(self.show_one(id, y)),
            (8..=9, _) => self.pin_one(id, block),
            (10..=11, Some(record)) => self.lift_one(alloc, record, block),
            (12..=13, Some(record)) => self.land_one(alloc, record, block, ((x >> 30) % 256) as u8),
            (14, _) => Ok(self.close_one(pool, seat, id)),
            _ => Ok(self.let_go_one(pool, seat)),
        }
    }
}

// Plays so many calls, and lets all records go at the end.
fn play_on(
    game: &mut Game,
    alloc: Global,
    pool: &Pool,
    seat: &mut PoolSeat,
    seed: u64,
    calls: u32,
) -> Result<Tally, Oom>
    requires pool { (game.old.player.memory.plan.pool ≡ pool_id pool.now)
        × (page_size pool.now ≡ 512) }
    requires seat { seat_pool seat.old ≡ pool_id pool.now }
    ensures plan { game.new.player.memory.plan ≡ game.old.player.memory.plan }
    ensures seat { seat_pool seat.new ≡ pool_id pool.now }
{
    let mut x = seed;
    let mut tally = Tally { same: 0, other: 0 };
    for _ in 0..calls {
        x = drawn(x);
        if game.call(alloc, pool, seat, x)? {
            tally.same = tally.same.wrapping_add(1);
        } else {
            tally.other = tally.other.wrapping_add(1);
        }
    }
    Ok(tally)
}

// Lets all records go.
fn let_all_go(game: &mut Game, pool: &Pool, seat: &mut PoolSeat, calls: u32) -> bool
    requires pool { game.old.player.memory.plan.pool ≡ pool_id pool.now }
    requires seat { seat_pool seat.old ≡ pool_id pool.now }
    ensures plan { game.new.player.memory.plan ≡ game.old.player.memory.plan }
    ensures seat { seat_pool seat.new ≡ pool_id pool.now }
{
    let mut well = true;
    for _ in 0..calls {
        well = game.let_go_one(pool, seat) && well;
    }
    well
}

/// Plays a game of so many calls, drawn from a seed, and ends it. It answers none where the end did
/// not go well: a buffer was kept, or a page did not come home.
pub fn play(alloc: Global, size: BlockSize, seed: u64, calls: u32) -> Result<Option<Tally>, Oom>
    requires { size ≡ 512 }
{
    let (pool, mut seats) = Pool::new(alloc, FRAMES, size, 1)?;
    let mut seat = seats.pop().unwrap();
    let mut game = Game {
        player: Player::new(alloc, size, &pool)?,
        plain: Plain::new(alloc),
        held: Vec::new(alloc),
        next: 0,
    };
    let tally = play_on(&mut game, alloc, &pool, &mut seat, seed, calls)?;
    let well = let_all_go(&mut game, &pool, &mut seat, calls);
    let Game { player, plain, .. } = game;
    match player.finish(&pool, &mut seat) {
        Some((dropped, _)) if well && dropped as usize == plain.here() => {
            let home = all_home(alloc, &pool, &mut seat)?;
            Ok(if home { Some(tally) } else { None })
        }
        _ => Ok(None),
    }
}

// Whether all frames can be claimed.
fn all_home(alloc: Global, pool: &Pool, seat: &mut PoolSeat) -> Result<bool, Oom>
    requires { seat_pool seat.old ≡ pool_id pool.now }
{
    let mut pages = Pages::with_room(alloc, FRAMES)?;
    Ok(pool.claim(seat, FRAMES, &mut pages).is_ok())
}
