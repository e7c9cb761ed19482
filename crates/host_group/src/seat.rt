//! The seats at cells.
use crate::view::View;
use atomic_table::Seat;

/// The admitting seat of cells, or the right to settle one member. It has no bytes, and may go to
/// another thread.
///
/// A right that is dropped never comes back: its instance does not end, and its place among the 64
/// is lost.
#[derive(Drop)]
pub struct CellSeat {
    pub(crate) seat: Seat<(), View>,
}
