//! The cells: how they are made, and what they tell at the end.
ghost use Rattle.std.specs.Prelude.{◌≡◌, ℕ, ◌<◌, [], IfOk};

use crate::failure::NO_FAILURE;
use crate::rule::CellRule;
use crate::seat::CellSeat;
use crate::view::View;
use atomic_table::Table;
use host_block::Oom;
use std::alloc::Global;

// The words of a cell: first the members that are left, and then these.
pub(crate) const ERROR: usize = 1;

pub(crate) const DEVICE_FRONT: usize = 2;

pub(crate) const MEMORY_FRONT: usize = 3;

pub(crate) const CLOSING: usize = 4;

/// Eight cells, one for each group number. No call but `new` takes memory, and none waits.
#[derive(Drop)]
pub struct Cells {
    pub(crate) table: Table<(), View, (), CellRule, Global>,
    ghost words: { table.shared.table_id.words ≡ 40 },
    ghost slots: { table.shared.table_id.slots ≡ 0 },
}

impl Cells {
    ghost use Rattle.host_group.specs.Seats.{IsAdmitting, IsNoneOut, admitted, back, next};
    ghost use Rattle.host_group.specs.Ends.{HaveRows, AreThoseAdmitted, HasItsEnd};

    /// Cells with no member, and their admitting seat. It has `Oom` for an answer only for want of
    /// memory.
    pub fn new(alloc: Global) -> Result<(Cells, CellSeat), Oom>
        ensures { IfOk result
            (λ r. IsAdmitting r.0 r.1 × (admitted r.1 ≡ []) × (back r.1 ≡ []) × (next r.1 ≡ 0)) }
    {
        let words = [
            0, NO_FAILURE, 0, 0, 0, 0, NO_FAILURE, 0, 0, 0, 0, NO_FAILURE, 0, 0, 0, 0, NO_FAILURE,
            0, 0, 0, 0, NO_FAILURE, 0, 0, 0, 0, NO_FAILURE, 0, 0, 0, 0, NO_FAILURE, 0, 0, 0, 0,
            NO_FAILURE, 0, 0, 0,
        ];
        match Table::of_words(alloc, &words, &()) {
            Ok((table, seat)) => Ok((Cells { table }, CellSeat { seat })),
            Err(_) => Err(Oom),
        }
    }

    /// Ends the cells, once all rights came back. Of the members of each closed instance just one
    /// was told an end, which is that of the instance.
    pub fn close(self, seat: CellSeat)
        requires { IsAdmitting self seat × IsNoneOut seat }
        ensures rows { HaveRows (admitted seat) (back seat) }
        ensures those { AreThoseAdmitted (admitted seat) (back seat) }
        ensures ends { (g j : ℕ) → g < 8 → HasItsEnd g j (admitted seat) (back seat) }
    {
        let Cells { table } = self;
        table.close_with(seat.seat).free();
    }
}
