//! A pool on one thread.
ghost use Rattle.std.specs.Prelude.{◌≡◌, ◌+◌, ◌<◌, IfOk, vec_len, vec_capacity, All};
ghost use Rattle.host_frames.specs.Seats.{seat_pool, pages_pool, pool_id};

use host_block::{BlockSize, Oom};
use host_frames::{NoFrames, Pages, Pool, PoolSeat};
use std::alloc::Global;
use std::test::*;

// The last seat of the list.
fn next_seat(pool: &Pool, seats: &mut Vec<PoolSeat>) -> PoolSeat
    requires { (0 < vec_len seats.old) × All (λ q. seat_pool q ≡ pool_id pool.now) seats.old.items }
    ensures seat { seat_pool result ≡ pool_id pool.now }
    ensures rest { (vec_len seats.new + 1 ≡ vec_len seats.old)
        × (vec_capacity seats.new ≡ vec_capacity seats.old)
        × All (λ q. seat_pool q ≡ pool_id pool.now) seats.new.items }
{
    seats.pop().unwrap()
}

// Claims n pages, as a value.
fn claimed(
    alloc: Global,
    pool: &Pool,
    seat: &mut PoolSeat,
    n: u32,
) -> Result<Result<Pages, NoFrames>, Oom>
    requires { seat_pool seat.old ≡ pool_id pool.now }
    ensures seat { seat_pool seat.new ≡ pool_id pool.now }
    ensures pages { IfOk result (λ r. IfOk r (λ p. pages_pool p ≡ pool_id pool.now)) }
{
    let mut pages = Pages::with_room(alloc, n)?;
    match pool.claim(seat, n, &mut pages) {
        Ok(()) => Ok(Ok(pages)),
        Err(none) => Ok(Err(none)),
    }
}

fn is_blank(pages: &Pages) -> bool {
    for i in 0..pages.len() {
        if pages.page(i).iter().any(|byte| *byte != 0) {
            return false;
        }
    }
    true
}

// What one pool of 4 frames with 2 seats does in turn.
#[derive(Debug, PartialEq, Eq, Drop)]
struct Seen {
    first: u32,
    refused: bool,
    second: u32,
    third: u32,
    blank: bool,
    home: u32,
}

fn take_turns(alloc: Global) -> Result<Seen, Oom> {
    let Some(size) = BlockSize::new(512) else {
        return Err(Oom);
    };
    let (pool, mut seats) = Pool::new(alloc, 4, size, 2)?;
    let mut one = next_seat(&pool, &mut seats);
    let mut zero = next_seat(&pool, &mut seats);
    let Ok(mut pages) = claimed(alloc, &pool, &mut zero, 3)? else {
        return Err(Oom);
    };
    let first = pages.len();
    let refused = claimed(alloc, &pool, &mut one, 2)?.is_err();
    let Ok(rest) = claimed(alloc, &pool, &mut one, 1)? else {
        return Err(Oom);
    };
    let second = rest.len();
    if first > 2 {
        pages.page_mut(2).fill(0xff);
    }
    pool.give_back(&mut zero, pages);
    let Ok(pages) = claimed(alloc, &pool, &mut one, 3)? else {
        return Err(Oom);
    };
    let third = pages.len();
    let blank = is_blank(&pages);
    pool.give_back(&mut one, pages);
    pool.give_back(&mut one, rest);
    seats.push_reserved(zero);
    seats.push_reserved(one);
    let home = pool.close(seats);
    Ok(Seen {
        first,
        refused,
        second,
        third,
        blank,
        home,
    })
}

#[test]
fn claim_refusal_zero_pages(rt: HostRuntime) -> Result<(), Fail> {
    let seen = take_turns(rt.alloc());
    let wanted = Seen {
        first: 3,
        refused: true,
        second: 1,
        third: 3,
        blank: true,
        home: 4,
    };
    assert!(rt; seen == Ok(wanted));
    Ok(())
}

// Which of the three claims got their pages, and the frames that are at home at the end.
fn exhaust(alloc: Global) -> Result<(bool, bool, bool, u32), Oom> {
    let Some(size) = BlockSize::new(512) else {
        return Err(Oom);
    };
    let (pool, mut seats) = Pool::new(alloc, 4096, size, 1)?;
    let mut seat = next_seat(&pool, &mut seats);
    let first = claimed(alloc, &pool, &mut seat, 4000)?;
    let second = claimed(alloc, &pool, &mut seat, 200)?;
    let third = claimed(alloc, &pool, &mut seat, 1)?;
    let got = (first.is_ok(), second.is_ok(), third.is_ok());
    if let Ok(pages) = third {
        pool.give_back(&mut seat, pages);
    }
    seats.push_reserved(seat);
    let home = pool.close(seats);
    Ok((got.0, got.1, got.2, home))
}

// The 4,000 pages of the first claim are dropped, so their frames don't come home.
#[test]
fn pool_exhausted(rt: HostRuntime) -> Result<(), Fail> {
    assert!(rt; exhaust(rt.alloc()) == Ok((true, false, true, 96)));
    Ok(())
}
