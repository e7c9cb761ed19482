//! Hands at the cells of one table: the members of an instance are settled in threads of their own.
ghost use Rattle.std.specs.Prelude.{◌≡◌, ◌≤◌, ◌<◌, ◌+◌, [], All, IfOk, length, vec_len};
ghost use Rattle.std.specs.Prelude.{vec_capacity};
ghost use Rattle.host_group.specs.Seats.{IsAdmitting, IsRight, IsSeatUnused, IsUsed, IsNoneOut};
ghost use Rattle.host_group.specs.Seats.{row, admitted, back, next};

use crate::group::plain_round::plain_end;
use crate::group::task::{Round, Task, device_front, memory_front};
use host_block::Oom;
use host_group::{CellBusy, CellSeat, Cells, GroupEnd, PlainCells};
use std::alloc::Global;
use std::thread::{Threads, for_each_mut};

/// What became of the rounds.
#[derive(Drop)]
pub struct Done {
    /// How many members were told an end.
    pub told: u32,
    /// In how many rounds the plain cells told the same end.
    pub agreed: u32,
    pub last: Option<GroupEnd>,
}

/// Runs one instance after the other under the same number, each by threads and by the plain cells.
pub fn run_rounds<R: Threads + Sync>(
    rt: &R,
    alloc: Global,
    rounds: u32,
    round: Round,
) -> Result<Done, Oom>
    requires { (round.members ≤ 64) × (0 < round.hands) × (rounds ≤ 10000) }
{
    let (cells, mut seat) = Cells::new(alloc)?;
    let Ok(mut tasks) = Vec::with_capacity(alloc, 64) else {
        return Err(Oom);
    };
    let mut plain = PlainCells::new();
    let mut done = Done {
        told: 0,
        agreed: 0,
        last: None,
    };
    let mut first = 0;
    for _ in 0..rounds {
        let Ok((told, end)) = run_round(rt, &cells, &mut seat, &mut tasks, round, first) else {
            return Ok(done);
        };
        let agreed = end == plain_end(&mut plain, round, first);
        done = Done {
            told: done.told.saturating_add(told),
            agreed: done.agreed.saturating_add(agreed as u32),
            last: end,
        };
        first += round.members;
    }
    cells.close(seat);
    Ok(done)
}

fn run_round<R: Threads + Sync>(
    rt: &R,
    cells: &Cells,
    seat: &mut CellSeat,
    tasks: &mut Vec<Task>,
    round: Round,
    first: u32,
) -> Result<(u32, Option<GroupEnd>), CellBusy>
    requires seat { IsAdmitting cells.now seat.old × IsNoneOut seat.old × (next seat.old ≤ first) }
    requires tasks { (tasks.old.items ≡ []) × (64 ≤ vec_capacity tasks.old) }
    requires round { (round.members ≤ 64) × (0 < round.hands) × (first + round.members ≤ 1000000) }
    ensures seat { IfOk result (λ _.
        IsAdmitting cells.now seat.new × IsNoneOut seat.new
        × (next seat.new ≤ first + round.members)) }
    ensures tasks { IfOk result (λ _. (tasks.new.items ≡ []) × (64 ≤ vec_capacity tasks.new)) }
{
    admit_all(cells, seat, tasks, round, first)?;
    settle_all(rt, cells, tasks, round.hands);
    Ok(join_all(cells, seat, tasks))
}

fn admit_all(
    cells: &Cells,
    seat: &mut CellSeat,
    tasks: &mut Vec<Task>,
    round: Round,
    first: u32,
) -> Result<(), CellBusy>
    requires seat { IsAdmitting cells.now seat.old × IsNoneOut seat.old × (next seat.old ≤ first) }
    requires tasks { (tasks.old.items ≡ []) × (64 ≤ vec_capacity tasks.old) }
    requires round { (round.members ≤ 64) × (first + round.members ≤ 1000000) }
    ensures seat { IfOk result (λ _.
        IsAdmitting cells.now seat.new
        × (length (admitted seat.new) ≡ length (back seat.new) + vec_len tasks.new)
        × (next seat.new ≤ first + round.members)) }
    ensures tasks { IfOk result (λ _.
        (64 ≤ vec_capacity tasks.new)
        × All (λ t.
        IsRight cells.now 3 t.right × IsSeatUnused t.right
        × ((row t.right).member.index ≡ t.index)) tasks.new.items) }
{
    for k in 0..round.members {
        let index = first + k;
        let right = cells.admit(seat, 3, index, 100 + index, k + 1 == round.members)?;
        tasks.push_reserved(Task {
            right,
            index,
            status: round.outcomes.status(index),
            end: None,
        });
    }
    Ok(())
}

fn settle_all<R: Threads + Sync>(rt: &R, cells: &Cells, tasks: &mut Vec<Task>, hands: u32)
    requires hands { 0 < hands }
    requires tasks { All (λ t.
        IsRight cells.now 3 t.right × IsSeatUnused t.right × ((row t.right).member.index ≡ t.index))
        tasks.old.items }
    ensures same { (vec_len tasks.new ≡ vec_len tasks.old)
        × (vec_capacity tasks.new ≡ vec_capacity tasks.old) }
    ensures tasks { All (λ t. IsRight cells.now 3 t.right × IsUsed t.right) tasks.new.items }
{
    for_each_mut(
        rt,
        tasks.as_mut_slice(),
        hands as usize,
        &|_, task: &mut Task|
            requires { IsRight cells.now 3 task.now.right × IsSeatUnused task.now.right
                × ((row task.now.right).member.index ≡ task.now.index) }
            ensures { IsRight cells.entry.now 3 task.exit.now.right × IsUsed task.exit.now.right }
        {
            task.end = cells.settle(
                &mut task.right,
                3,
                task.index,
                task.status,
                device_front(task.index),
                memory_front(task.index),
            );
        },
    );
}

// How many were told an end, and one of the ends.
fn join_all(cells: &Cells, seat: &mut CellSeat, tasks: &mut Vec<Task>) -> (u32, Option<GroupEnd>)
    requires seat { IsAdmitting cells.now seat.old
        × (length (admitted seat.old) ≡ length (back seat.old) + vec_len tasks.old) }
    requires tasks { All (λ t. IsRight cells.now 3 t.right × IsUsed t.right) tasks.old.items }
    ensures seat { IsAdmitting cells.now seat.new × IsNoneOut seat.new
        × (next seat.new ≡ next seat.old) }
    ensures tasks { (tasks.new.items ≡ []) × (vec_capacity tasks.new ≡ vec_capacity tasks.old) }
{
    let mut told = 0u32;
    let mut found = None;
    while let Some(task) = tasks.pop() {
        if task.end.is_some() {
            told = told.saturating_add(1);
            found = task.end;
        }
        cells.join_right(seat, task.right);
    }
    (told, found)
}
