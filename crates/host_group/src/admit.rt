//! The admitting seat admits members, and takes their rights back.
ghost use Rattle.std.specs.Prelude.{◌≡◌, ◌≤◌, ◌<◌, ◌+◌, ◌*◌, ◌++◌, [], ◌∷◌, true, false, IfOk};
ghost use Rattle.std.specs.Prelude.{IfErr};
ghost use Rattle.host_group.specs.Seats.{IsAdmitting, IsClaiming, IsSeatAt, IsRight, IsUsed};
ghost use Rattle.host_group.specs.Seats.{IsFewerOut, admitted, back, next, refusals, row, member};
ghost use Rattle.host_group.specs.Seats.{view_of};
ghost use Rattle.host_group.specs.declared.view.Stage.TheVariants.{Looked, Placed, Added};
ghost use Rattle.host_group.specs.Views.{members_closing, fresh_row, name_of, refused_view};
ghost use Rattle.host_group.specs.Views.{looking_cell_view, placed_view, added_view};
ghost use Rattle.host_group.specs.Steps.{IsBusy};

use crate::cell_busy::CellBusy;
use crate::cells::{CLOSING, Cells};
use crate::seat::CellSeat;
use crate::steps::{Add, AddLast, HandOut, Look, Place, Return};

impl Cells {
    /// Admits a member to the current instance of the number g, and gives the right to settle it.
    /// It waits for nobody.
    pub fn admit(
        &self,
        seat: &mut CellSeat,
        g: u16,
        index: u32,
        reqid: u32,
        last: bool,
    ) -> Result<CellSeat, CellBusy>
        requires seat { IsAdmitting self.now seat.old × (g ≤ 7) }
        requires index { (next seat.old ≤ index) × (index < 4294967295) }
        requires room { IsFewerOut seat.old 64 }
        ensures seat { IsAdmitting self.now seat.new × (back seat.new ≡ back seat.old) }
        ensures right { IfOk result (λ right.
            IsRight self.now g right
            × (row right
            ≡ fresh_row (member g (members_closing g (admitted seat.old)) index reqid last))) }
        ensures admitted { IfOk result (λ right.
            (admitted seat.new
            ≡ admitted seat.old
            ++ member g (members_closing g (admitted seat.old)) index reqid last ∷ [])
            × (next seat.new ≡ index + 1)) }
        ensures looked { IfOk result (λ right. refusals seat.new ≡ refusals seat.old) }
        ensures busy { IfErr result (λ _.
            (view_of seat.new ≡ refused_view (view_of seat.old)) × IsBusy g (view_of seat.old)) }
    {
        let name = index as u64 + 4294967296 * reqid as u64;
        if self.look(seat, g, name) {
            return Err(CellBusy);
        }
        self.add(seat, g, name, last);
        let right = self.table.shared.split_seat::<HandOut>(&mut seat.seat);
        Ok(CellSeat { seat: right })
    }

    // Has the number a closed instance that has not ended?
    fn look(&self, seat: &mut CellSeat, g: u16, name: u64) -> bool
        requires { IsAdmitting self.now seat.old × (g ≤ 7) }
        ensures closed { result ≡ true
            → IsAdmitting self.now seat.new × (view_of seat.new ≡ refused_view (view_of seat.old))
            × IsBusy g (view_of seat.old) }
        ensures clear { result ≡ false
            → IsClaiming Looked self.now g seat.new
            × (view_of seat.new ≡ looking_cell_view (view_of seat.old) g name) }
    {
        let left = self
            .table
            .shared
            .compare_exchange::<Look>(&mut seat.seat, 5 * g as usize, u64::MAX, name);
        left / 128 % 2 == 1
    }

    fn add(&self, seat: &mut CellSeat, g: u16, name: u64, last: bool)
        requires seat { IsClaiming Looked self.now g seat.old × (g ≤ 7)
            × (name_of (row seat.old).member ≡ name) }
        requires room { IsFewerOut seat.old 64 }
        requires index { (next seat.old ≤ (row seat.old).member.index)
            × ((row seat.old).member.index < 4294967295) }
        ensures { IsSeatAt Added self.now seat.new
            × (view_of seat.new ≡ added_view last (view_of seat.old)) }
    {
        if last {
            self.place(seat, g, name);
            self.table
                .shared
                .fetch_add::<AddLast>(&mut seat.seat, 5 * g as usize, 385);
        } else {
            self.table
                .shared
                .fetch_add::<Add>(&mut seat.seat, 5 * g as usize, 257);
        }
    }

    fn place(&self, seat: &mut CellSeat, g: u16, name: u64)
        requires { IsClaiming Looked self.now g seat.old × (g ≤ 7)
            × (name_of (row seat.old).member ≡ name) }
        ensures { IsClaiming Placed self.now g seat.new
            × (view_of seat.new ≡ placed_view (view_of seat.old)) }
    {
        self.table
            .shared
            .swap::<Place>(&mut seat.seat, 5 * g as usize + CLOSING, name);
    }

    /// A right comes back, with what its member settled with and was told.
    pub fn join_right(&self, seat: &mut CellSeat, right: CellSeat)
        requires seat { IsAdmitting self.now seat.old }
        requires right { IsRight self.now (row right).member.number right × IsUsed right }
        ensures seat { IsAdmitting self.now seat.new × (admitted seat.new ≡ admitted seat.old)
            × (next seat.new ≡ next seat.old) × (refusals seat.new ≡ refusals seat.old) }
        ensures back { back seat.new ≡ row right ∷ back seat.old }
    {
        self.table
            .shared
            .join_seat::<Return>(&mut seat.seat, right.seat);
    }
}
