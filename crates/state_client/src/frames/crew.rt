//! A pool from its making to its close: four seats are handed to four threads.
ghost use Rattle.std.specs.Prelude.{◌≡◌, ◌+◌, ◌<◌, ◌≤◌, All, vec_len, vec_capacity};
ghost use Rattle.host_frames.specs.Seats.{seat_pool, pool_id};

use crate::frames::worker::Worker;
use host_block::{BlockSize, Oom};
use host_frames::{Pool, PoolSeat};
use std::alloc::Global;
use std::thread::{Threads, join};

/// What a crew works at.
#[derive(Clone, Copy, Debug)]
pub struct Job {
    /// How many frames the pool has.
    pub frames: u32,
    pub size: BlockSize,
    /// How many pages a worker claims at a time.
    pub pages: u32,
    pub rounds: u32,
}

/// What became of the work: whether each worker found its pages blank and its own mark in them, and
/// the frames that were at home at the end.
#[derive(Clone, Copy, Debug, PartialEq, Eq)]
pub struct Done {
    pub well: bool,
    pub home: u32,
}

/// Four workers claim pages and give them back, over and over, each in a thread of its own.
pub fn work_together<R: Threads + Sync>(rt: &R, alloc: Global, job: Job) -> Result<Done, Oom>
    requires { (1 ≤ job.frames) × (0 < job.pages) }
{
    let (pool, mut seats) = Pool::new(alloc, job.frames, job.size, 4)?;
    let a = next_worker(&pool, &mut seats, 1);
    let b = next_worker(&pool, &mut seats, 2);
    let c = next_worker(&pool, &mut seats, 3);
    let d = next_worker(&pool, &mut seats, 4);
    let shared = &pool;
    let (((a, a_well), (b, b_well)), ((c, c_well), (d, d_well))) = join(
        rt,
        || -> ((Worker, bool), (Worker, bool))
            requires { (seat_pool a.seat ≡ pool_id shared.now)
                × (seat_pool b.seat ≡ pool_id shared.now) × (0 < job.pages) }
            ensures { (seat_pool result.0.0.seat ≡ pool_id shared.entry.now)
                × (seat_pool result.1.0.seat ≡ pool_id shared.entry.now) }
        { work_by_two(rt, alloc, shared, a, b, job) },
        || -> ((Worker, bool), (Worker, bool))
            requires { (seat_pool c.seat ≡ pool_id shared.now)
                × (seat_pool d.seat ≡ pool_id shared.now) × (0 < job.pages) }
            ensures { (seat_pool result.0.0.seat ≡ pool_id shared.entry.now)
                × (seat_pool result.1.0.seat ≡ pool_id shared.entry.now) }
        { work_by_two(rt, alloc, shared, c, d, job) },
    );
    seats.push_reserved(a.seat);
    seats.push_reserved(b.seat);
    seats.push_reserved(c.seat);
    seats.push_reserved(d.seat);
    let home = pool.close(seats);
    Ok(Done {
        well: a_well && b_well && c_well && d_well,
        home,
    })
}

// A worker with the last seat of the list.
fn next_worker(pool: &Pool, seats: &mut Vec<PoolSeat>, mark: u8) -> Worker
    requires { (0 < vec_len seats.old) × All (λ q. seat_pool q ≡ pool_id pool.now) seats.old.items }
    ensures seat { seat_pool result.seat ≡ pool_id pool.now }
    ensures rest { (vec_len seats.new + 1 ≡ vec_len seats.old)
        × (vec_capacity seats.new ≡ vec_capacity seats.old)
        × All (λ q. seat_pool q ≡ pool_id pool.now) seats.new.items }
{
    let seat = seats.pop().unwrap();
    Worker { seat, mark }
}

// Two workers, each in a thread of its own.
fn work_by_two<R: Threads + Sync>(
    rt: &R,
    alloc: Global,
    pool: &Pool,
    first: Worker,
    second: Worker,
    job: Job,
) -> ((Worker, bool), (Worker, bool))
    requires { (seat_pool first.seat ≡ pool_id pool.now)
        × (seat_pool second.seat ≡ pool_id pool.now) × (0 < job.pages) }
    ensures { (seat_pool result.0.0.seat ≡ pool_id pool.now)
        × (seat_pool result.1.0.seat ≡ pool_id pool.now) }
{
    join(
        rt,
        || -> (Worker, bool)
            requires { (seat_pool first.seat ≡ pool_id pool.now) × (0 < job.pages) }
            ensures { seat_pool result.0.seat ≡ pool_id pool.entry.now }
        { work_often(alloc, pool, first, job) },
        || -> (Worker, bool)
            requires { (seat_pool second.seat ≡ pool_id pool.now) × (0 < job.pages) }
            ensures { seat_pool result.0.seat ≡ pool_id pool.entry.now }
        { work_often(alloc, pool, second, job) },
    )
}

fn work_often(alloc: Global, pool: &Pool, mut worker: Worker, job: Job) -> (Worker, bool)
    requires { (seat_pool worker.seat ≡ pool_id pool.now) × (0 < job.pages) }
    ensures { seat_pool result.0.seat ≡ pool_id pool.now }
{
    let mut well = true;
    for _ in 0..job.rounds {
        well = worker.work(alloc, pool, job.pages) && well;
    }
    (worker, well)
}
