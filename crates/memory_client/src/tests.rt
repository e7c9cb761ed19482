ghost use Rattle.std.specs.Prelude.{◌≡◌};
ghost use Rattle.host_frames.specs.Seats.{page_size, pool_id, seat_pool};

use crate::player::{Carried, Player};
use crate::{Tally, play};
use host_block::{BlockSize, Oom};
use host_frames::{Pool, PoolSeat};
use std::alloc::Global;
use std::test::Fail;

// The pages of a closed buffer leave with the last done, and not before.
fn close_then_done(
    alloc: Global,
    player: &mut Player,
    pool: &Pool,
    seat: &mut PoolSeat,
) -> Result<bool, Oom>
    requires pool { (player.old.memory.plan.pool ≡ pool_id pool.now) × (page_size pool.now ≡ 512) }
    requires seat { seat_pool seat.old ≡ pool_id pool.now }
    ensures plan { player.new.memory.plan ≡ player.old.memory.plan }
    ensures seat { seat_pool seat.new ≡ pool_id pool.now }
{
    let Some(id) = player.attach(alloc, pool, seat, 0)? else {
        return Ok(false);
    };
    let read = Carried {
        hand: 0,
        index: 0,
        id,
    };
    let write = Carried {
        hand: 1,
        index: 1,
        id,
    };
    let pinned = player.pin(id, 0, 0) && player.pin(id, 1, 1);
    let landed = player.land(alloc, &read, 1, &[7u8; 512])?;
    let waits = player.close(pool, seat, id, 2) == Some(false);
    let still_stands = player.standing(id, 2) == Some(3) && player.standing(id, 3).is_none();
    let held = player.let_go(pool, seat, &read) == Some(None);
    let mut into = [0u8; 512];
    let lifted = player.lift(alloc, &write, 1, &mut into)? && into == [7u8; 512];
    let left = player.let_go(pool, seat, &write) == Some(Some(2));
    let gone = player.standing(id, 2).is_none() && !player.fill(id, 0, 1, 1);
    Ok(pinned && landed && waits && still_stands && held && lifted && left && gone)
}

// Blocks at the edges of a buffer.
fn edges(alloc: Global, player: &mut Player, pool: &Pool, seat: &mut PoolSeat) -> Result<bool, Oom>
    requires pool { (player.old.memory.plan.pool ≡ pool_id pool.now) × (page_size pool.now ≡ 512) }
    requires seat { seat_pool seat.old ≡ pool_id pool.now }
    ensures plan { player.new.memory.plan ≡ player.old.memory.plan }
    ensures seat { seat_pool seat.new ≡ pool_id pool.now }
{
    let Some(id) = player.attach(alloc, pool, seat, 5)? else {
        return Ok(false);
    };
    let from = player.standing(id, 4).is_none() && player.standing(id, 5) == Some(3);
    let filled = player.fill(id, 2, 1, 9) && player.fill(id, 3, 0, 9);
    let past = player.fill(id, 2, 2, 8)
        || player.fill(id, 4, 0, 8)
        || player.fill(id, 4294967295, 2, 8);
    let mut into = [1u8; 1536];
    let shown = player.show(id, 0, 3, &mut into) && into[1023] == 0 && into[1024] == 9;
    let beyond = player.show(id, 1, 3, &mut into) || player.show(id, 3, 0, &mut into);
    Ok(from && filled && !past && shown && !beyond)
}

fn two_buffers(alloc: Global, size: BlockSize) -> Result<bool, Oom>
    requires { size ≡ 512 }
{
    let (pool, mut seats) = Pool::new(alloc, 9, size, 1)?;
    let mut seat = seats.pop().unwrap();
    let mut player = Player::new(alloc, size, &pool)?;
    let first = close_then_done(alloc, &mut player, &pool, &mut seat)?;
    let second = edges(alloc, &mut player, &pool, &mut seat)?;
    let third = player.attach(alloc, &pool, &mut seat, 0)? == Some(3);
    let closed = player.close(&pool, &mut seat, 3, 9) == Some(true);
    let fourth = player.attach(alloc, &pool, &mut seat, 0)? == Some(4);
    let ended = player.finish(&pool, &mut seat) == Some((2, 19));
    Ok(first && second && third && closed && fourth && ended)
}

#[test]
fn pages_leave_once(rt: HostRuntime) -> Result<(), Fail> {
    let size = BlockSize::new(512).ok_or("size")?;
    assert_eq!(rt; size.bytes(), 512);
    assert!(rt; two_buffers(rt.alloc(), size).is_ok_and(|well| well));
    Ok(())
}

#[test]
fn random_calls_do_as_the_plain_model(rt: HostRuntime) -> Result<(), Fail> {
    let size = BlockSize::new(512).ok_or("size")?;
    assert_eq!(rt; size.bytes(), 512);
    for seed in 0..20u64 {
        let game = play(rt.alloc(), size, seed, 500);
        assert!(rt; game.is_ok());
        assert_eq!(rt;
            game.unwrap_or(None),
            Some(Tally {
                same: 500,
                other: 0
            }),
            "at {seed}"
        );
    }
    Ok(())
}
