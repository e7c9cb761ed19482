//! A state that keeps the admitting seat, and a member that waits with its right.
ghost use Rattle.std.specs.Prelude.{◌≡◌, ℕ, ◌≤◌, ◌<◌, ◌+◌, ◌++◌, [], ◌∷◌, IfOk, IfErr};
ghost use Rattle.host_group.specs.declared.view.Row.{Row};
ghost use Rattle.host_group.specs.Views.{members_closing};
ghost use Rattle.host_group.specs.Steps.{IsBusy};
ghost use Rattle.host_group.specs.Seats.{IsAdmittingOf, IsRightOf, IsSeatUnused, IsFewerOut};
ghost use Rattle.host_group.specs.Seats.{IsNoneOut, cells_id, seat_cells, admitted, back, next};
ghost use Rattle.host_group.specs.Seats.{row, member, view_of};
ghost use Rattle.host_group.specs.Ends.{HasItsEnd, end_of};

use host_group::{CellBusy, CellSeat, Cells, GroupEnd};
use host_record::Status;

/// The admitting seat of some cells, at rest.
#[derive(Drop)]
pub struct Desk {
    pub seat: CellSeat,
    ghost resting: { IsAdmittingOf (seat_cells seat) seat },
}

/// A member that waits, with the right to settle it.
#[derive(Drop)]
pub struct Waiting {
    pub number: u16,
    pub index: u32,
    pub right: CellSeat,
    ghost settles: { IsRightOf (seat_cells right) number right },
    ghost unused: { IsSeatUnused right × ((row right).member.index ≡ index) },
}

impl Desk {
    /// Takes a member, which then waits.
    pub fn take(
        &mut self,
        cells: &Cells,
        g: u16,
        index: u32,
        reqid: u32,
        last: bool,
    ) -> Result<Waiting, CellBusy>
        requires cells { (seat_cells self.old.seat ≡ cells_id cells.now) × (g ≤ 7) }
        requires index { (next self.old.seat ≤ index) × (index < 4294967295) }
        requires room { IsFewerOut self.old.seat 64 }
        ensures same { (seat_cells self.new.seat ≡ cells_id cells.now)
            × (back self.new.seat ≡ back self.old.seat) }
        ensures took { IfOk result (λ w.
            (seat_cells w.right ≡ cells_id cells.now) × (w.number ≡ g) × (w.index ≡ index)
            × (admitted self.new.seat
            ≡ admitted self.old.seat
            ++ member g (members_closing g (admitted self.old.seat)) index reqid last ∷ [])) }
        ensures busy { IfErr result (λ _.
            (admitted self.new.seat ≡ admitted self.old.seat) × IsBusy g (view_of self.old.seat)) }
    {
        let right = cells.admit(&mut self.seat, g, index, reqid, last)?;
        Ok(Waiting {
            number: g,
            index,
            right,
        })
    }

    /// Settles a member that waits, and takes its right back. The last one of a closed instance is
    /// told its end.
    pub fn land(
        &mut self,
        cells: &Cells,
        mut waiting: Waiting,
        status: Status,
        device_front: u64,
        memory_front: u64,
    ) -> Option<GroupEnd>
        requires { (seat_cells self.old.seat ≡ cells_id cells.now)
            × (seat_cells waiting.right ≡ cells_id cells.now) }
        ensures same { (seat_cells self.new.seat ≡ cells_id cells.now)
            × (admitted self.new.seat ≡ admitted self.old.seat) }
        ensures landed { (r : Row) × (back self.new.seat ≡ r ∷ back self.old.seat)
            × (r.member ≡ (row waiting.right).member) × (r.status ≡ status) × (end_of r ≡ result) }
    {
        let Waiting {
            number,
            index,
            mut right,
        } = waiting;
        let end = cells.settle(
            &mut right,
            number,
            index,
            status,
            device_front,
            memory_front,
        );
        cells.join_right(&mut self.seat, right);
        end
    }

    /// Ends the cells, once nobody waits: each closed instance has had its end.
    pub fn close(self, cells: Cells)
        requires { (seat_cells self.seat ≡ cells_id cells) × IsNoneOut self.seat }
        ensures { (g j : ℕ) → g < 8 → HasItsEnd g j (admitted self.seat) (back self.seat) }
    {
        let Desk { seat } = self;
        cells.close(seat);
    }
}
