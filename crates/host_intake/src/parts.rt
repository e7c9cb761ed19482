use host_group::CellSeat;
use host_log::SwitchLog;
use host_memory::Memory;
use host_model::TakenRow;
use host_rings::Taker;
use host_turn::BookSeat;

/// What is left of an intake at the end.
#[derive(Drop)]
pub struct IntakeParts {
    /// The records taken, by rising index.
    pub rows: SwitchLog<TakenRow>,
    pub taker: Taker,
    pub memory_seat: BookSeat<Memory>,
    pub cell_seat: CellSeat,
}
