use host_group::Cells;
use host_intake::Intake;
use host_memory::Memory;
use host_turn::Book;

/// What the client and the hands of one session share.
#[derive(Drop)]
pub struct SessionShared {
    pub intake: Book<Intake>,
    pub memory: Book<Memory>,
    pub cells: Cells,
}
