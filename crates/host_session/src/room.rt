use host_intake::Intake;
use host_memory::Memory;
use host_rings::SlipSender;
use host_turn::BookSeat;

/// Room for what the closing calls take, so that closing a session takes no memory.
#[derive(Drop)]
pub(crate) struct ClosingRoom {
    pub(crate) intake_seats: Vec<BookSeat<Intake>>,
    pub(crate) memory_seats: Vec<BookSeat<Memory>>,
    pub(crate) senders: Vec<SlipSender>,
}
