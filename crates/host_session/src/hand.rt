use host_intake::Intake;
use host_memory::Memory;
use host_rings::SlipSender;
use host_turn::BookSeat;

/// What one hand has of a session: its seats at both books, and its end of the answer ring, all of
/// its number.
#[derive(Drop)]
pub struct SessionHand {
    pub intake: BookSeat<Intake>,
    pub memory: BookSeat<Memory>,
    pub sender: SlipSender,
}
