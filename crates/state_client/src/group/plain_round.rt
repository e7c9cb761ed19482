//! The same instance by the plain cells.
ghost use Rattle.std.specs.Prelude.{◌≡◌, ◌≤◌, ◌<◌, ◌+◌, true};
ghost use Rattle.host_group.specs.PlainRows.{plain_cell};

use crate::group::task::{Round, device_front, memory_front};
use host_group::{GroupEnd, PlainCells};

/// The end of an instance whose first member has this index.
pub(crate) fn plain_end(cells: &mut PlainCells, round: Round, first: u32) -> Option<GroupEnd>
    requires { (cells.old.next ≤ first) × (first + round.members ≤ 1000000) }
    ensures { cells.new.next ≤ first + round.members }
{
    if admit_plainly(cells, round, first) {
        settle_plainly(cells, round, first)
    } else {
        None
    }
}

fn admit_plainly(cells: &mut PlainCells, round: Round, first: u32) -> bool
    requires { (cells.old.next ≤ first) × (first + round.members ≤ 1000000) }
    ensures next { cells.new.next ≤ first + round.members }
    ensures members { result ≡ true → round.members ≤ (plain_cell 3 cells.new).unsettled }
{
    for k in 0..round.members {
        let index = first + k;
        let admitted = cells.admit(3, index, 100 + index, k + 1 == round.members);
        if admitted.is_err() {
            return false;
        }
    }
    true
}

fn settle_plainly(cells: &mut PlainCells, round: Round, first: u32) -> Option<GroupEnd>
    requires members { round.members ≤ (plain_cell 3 cells.old).unsettled }
    requires indexes { first + round.members ≤ 1000000 }
    ensures { cells.new.next ≡ cells.old.next }
{
    for k in 0..round.members {
        let index = first + k;
        let status = round.outcomes.status(index);
        let end = cells.settle(3, index, status, device_front(index), memory_front(index));
        if end.is_some() {
            return end;
        }
    }
    None
}
