//! The cells of one thread, the plain program that says what the others are to do. Tests compare
//! with it.
ghost use Rattle.std.specs.Prelude.{◌≡◌, ◌≢◌, ◌⊎◌, ◌≤◌, ◌<◌, ◌+◌, ◌++◌, ◌∷◌, [], ℕ, List, true};
ghost use Rattle.std.specs.Prelude.{false, set, length, All, IfOk, IfErr, MatchOption};

use crate::cell_busy::CellBusy;
use crate::failure::{NO_FAILURE, failure_word, status_of};
use crate::group_end::GroupEnd;
use host_record::Status;

/// What the members of one number's current instance have come to.
#[derive(Clone, Copy)]
pub struct PlainCell {
    pub(crate) members: u32,
    pub(crate) unsettled: u32,
    pub(crate) closed: bool,
    // Those of the member that was admitted last.
    pub(crate) index: u32,
    pub(crate) reqid: u32,
    pub(crate) error: u64,
    pub(crate) device_front: u64,
    pub(crate) memory_front: u64,
}

/// Eight cells, one for each group number.
#[derive(Drop)]
pub struct PlainCells {
    pub(crate) cells: [PlainCell; 8],
    pub(crate) next: u32,
    ghost eight: { length cells ≡ 8 },
    ghost counts: { All (λ c. (c.unsettled ≤ c.members) × (c.members ≤ next)) cells },
}

const EMPTY: PlainCell = PlainCell {
    members: 0,
    unsettled: 0,
    closed: false,
    index: 0,
    reqid: 0,
    error: NO_FAILURE,
    device_front: 0,
    memory_front: 0,
};

impl PlainCells {
    ghost use Rattle.host_group.specs.declared.view.Row.{Row};
    ghost use Rattle.host_group.specs.Views.{fresh_row};
    ghost use Rattle.host_group.specs.Seats.{member};
    ghost use Rattle.host_group.specs.Ends.{IsEnd};
    ghost use Rattle.host_group.specs.PlainRows.{plain_cell, HasRows, IsRowWaiting, IsGoingOn};
    ghost use Rattle.host_group.specs.PlainRows.{settled_row};

    /// Cells with no member.
    pub fn new() -> PlainCells
        ensures { (result.next ≡ 0) × ((g : ℕ) → HasRows g result []) }
    {
        PlainCells {
            cells: [EMPTY; 8],
            next: 0,
        }
    }

    /// Admits a member to the current instance of the number g.
    pub fn admit(&mut self, g: u16, index: u32, reqid: u32, last: bool) -> Result<(), CellBusy>
        requires number { g ≤ 7 }
        requires index { (self.old.next ≤ index) × (index < 4294967295) }
        ensures busy { IfErr result
            (λ _. ((plain_cell g self.old).closed ≡ true) × (self.new ≡ self.old)) }
        ensures free { IfOk result
            (λ _. ((plain_cell g self.old).closed ≡ false) × (self.new.next ≡ index + 1)) }
        ensures unsettled { IfOk result
            (λ _. (plain_cell g self.new).unsettled ≡ (plain_cell g self.old).unsettled + 1) }
        ensures rows { IfOk result (λ _.
            (rows : List Row) (j : ℕ) → HasRows g self.old rows
            → HasRows g self.new (rows ++ fresh_row (member g j index reqid last) ∷ [])) }
        ensures others { IfOk result (λ _.
            (h : ℕ) (rows : List Row) → h ≢ g → HasRows h self.old rows → HasRows h self.new rows) }
    {
        let cell = self.cells[g as usize];
        if cell.closed {
            return Err(CellBusy);
        }
        let mut cells = self.cells;
        cells[g as usize] = cell.with_member(index, reqid, last);
        *self = PlainCells {
            cells,
            next: index + 1,
        };
        Ok(())
    }

    /// Settles a member. The last one of a closed instance is told how the instance ended.
    pub fn settle(
        &mut self,
        g: u16,
        index: u32,
        status: Status,
        device_front: u64,
        memory_front: u64,
    ) -> Option<GroupEnd>
        requires { (g ≤ 7) × (0 < (plain_cell g self.old).unsettled) }
        ensures next { self.new.next ≡ self.old.next }
        ensures unsettled { MatchOption result
            ((plain_cell g self.new).unsettled + 1 ≡ (plain_cell g self.old).unsettled)
            (λ _. (plain_cell g self.new).unsettled ≡ 0) }
        ensures end { (rows : List Row) (i : ℕ) (r : Row) → HasRows g self.old rows
            → IsRowWaiting rows i index r
            → MatchOption result (HasRows g self.new
            (set rows i (settled_row r status device_front memory_front))
            × IsGoingOn (set rows i (settled_row r status device_front memory_front)))
            (λ e.
            HasRows g self.new []
            × IsEnd (set rows i (settled_row r status device_front memory_front)) e) }
        ensures others { (h : ℕ) (rows : List Row) → h ≢ g → HasRows h self.old rows
            → HasRows h self.new rows }
    {
        let word = failure_word(index, status);
        let cell = self.cells[g as usize].with_settled(word, device_front, memory_front);
        if cell.has_ended() {
            self.replace(g, EMPTY);
            Some(cell.end())
        } else {
            self.replace(g, cell);
            None
        }
    }

    fn replace(&mut self, g: u16, cell: PlainCell)
        requires { (g ≤ 7) × (cell.unsettled ≤ cell.members) × (cell.members ≤ self.old.next) }
        ensures { (self.new.next ≡ self.old.next) × (self.new.cells ≡ set self.old.cells g cell) }
    {
        let mut cells = self.cells;
        cells[g as usize] = cell;
        *self = PlainCells {
            cells,
            next: self.next,
        };
    }
}

impl PlainCell {
    ghost use Rattle.host_group.specs.PlainRows.{added_cell, settled_cell, cell_end};

    fn with_member(self, index: u32, reqid: u32, last: bool) -> PlainCell
        requires { (self.members < 4294967295) × (self.unsettled < 4294967295) }
        ensures { result ≡ added_cell self index reqid last }
    {
        PlainCell {
            members: self.members + 1,
            unsettled: self.unsettled + 1,
            closed: last,
            index,
            reqid,
            error: self.error,
            device_front: self.device_front,
            memory_front: self.memory_front,
        }
    }

    fn with_settled(self, word: u64, device_front: u64, memory_front: u64) -> PlainCell
        requires { 0 < self.unsettled }
        ensures { result ≡ settled_cell self word device_front memory_front }
    {
        PlainCell {
            members: self.members,
            unsettled: self.unsettled - 1,
            closed: self.closed,
            index: self.index,
            reqid: self.reqid,
            error: self.error.min(word),
            device_front: self.device_front.max(device_front),
            memory_front: self.memory_front.max(memory_front),
        }
    }

    // Whether the instance is closed, and all its members have settled.
    fn has_ended(&self) -> bool
        ensures ended { result ≡ true → (self.now.closed ≡ true) × (self.now.unsettled ≡ 0) }
        ensures going { result ≡ false → (self.now.closed ≡ false) ⊎ (0 < self.now.unsettled) }
    {
        self.closed && self.unsettled == 0
    }

    fn end(self) -> GroupEnd
        ensures { result ≡ cell_end self }
    {
        GroupEnd {
            status: status_of(self.error),
            count: self.members,
            reqid: self.reqid,
            index: self.index,
            device_front: self.device_front,
            memory_front: self.memory_front,
        }
    }
}
