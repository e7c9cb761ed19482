//! Eight cells, in which the members of groups settle without a lock: each closed group instance
//! has one end.
#![tactic(auto)]

mod admit;
mod cell_busy;
mod cells;
mod cells_name;
mod failure;
mod group_end;
mod plain_cells;
mod rule;
mod seat;
mod settle;
mod steps;
mod view;

pub use cell_busy::CellBusy;
pub use cells::Cells;
pub use cells_name::CellsName;
pub use group_end::GroupEnd;
pub use plain_cells::{PlainCell, PlainCells};
pub use seat::CellSeat;
