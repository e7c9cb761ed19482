//! The two ends of a session are put together.
ghost use Rattle.std.specs.Prelude.{◌≡◌, true, length, map, vec_capacity};
ghost use Rattle.host_session.specs.ClientFields.{HasRoomForHands};
ghost use Rattle.host_session.specs.Plan.{AreAllHands, IsShared};
ghost use Rattle.host_session.specs.Keeping.{AreKeptAs};
ghost use Rattle.host_session.specs.Whole.{IsSessionWhole};

use crate::client::ClientEnd;
use crate::hand::SessionHand;
use crate::room::ClosingRoom;
use crate::shared::SessionShared;
use host_intake::IntakeParts;
use host_log::SwitchLog;
use host_model::{Event, MemEntry, TakenRow};
use host_rings::{close_answers, close_requests};

/// What a session leaves: its client's log, the rows of the records taken, and the history of its
/// buffers.
#[derive(Drop)]
pub struct SessionLogs {
    pub log: SwitchLog<Event>,
    pub rows: SwitchLog<TakenRow>,
    pub memory: SwitchLog<MemEntry>,
}

/// Ends a session that is closed, with all its hands, and gives the client's log, the rows of the
/// records taken, and the history of the buffers. It takes no memory.
pub fn close_session(
    shared: SessionShared,
    client: ClientEnd,
    hands: Vec<SessionHand>,
) -> SessionLogs
    requires shared { IsShared client.plan shared }
    requires hands { AreAllHands client.plan hands.items }
    requires closed { client.closed ≡ true }
    ensures whole { IsSessionWhole client hands.items result.log.items result.rows.items
        result.memory.items }
    ensures kept { AreKeptAs client.plan.spec.keeps result }
{
    let SessionShared {
        intake,
        memory,
        cells,
    } = shared;
    let ClientEnd {
        log,
        intake_seat,
        memory_seat,
        sender,
        taker,
        closing,
        ..
    } = client;
    let ClosingRoom {
        mut intake_seats,
        mut memory_seats,
        senders,
    } = gather(closing, hands);
    intake_seats.push_reserved(intake_seat);
    memory_seats.push_reserved(memory_seat);
    let state = intake.close(intake_seats);
    state.vouch();
    let IntakeParts {
        rows,
        taker: requests,
        memory_seat: admissions,
        cell_seat,
    } = state.into_parts();
    memory_seats.push_reserved(admissions);
    let buffers = memory.close(memory_seats);
    buffers.vouch();
    close_requests(sender, requests);
    close_answers(senders, taker);
    cells.close(cell_seat);
    SessionLogs {
        log,
        rows,
        memory: buffers.into_entries(),
    }
}

// The seats and senders of all hands, by their numbers, in the room that was kept for them.
fn gather(closing: ClosingRoom, hands: Vec<SessionHand>) -> ClosingRoom
    requires { HasRoomForHands (length hands.items) closing }
    ensures seats { (result.intake_seats.items ≡ map (λ hand. hand.intake) hands.items)
        × (result.memory_seats.items ≡ map (λ hand. hand.memory) hands.items)
        × (result.senders.items ≡ map (λ hand. hand.sender) hands.items) }
    ensures room { (vec_capacity result.intake_seats ≡ vec_capacity closing.intake_seats)
        × (vec_capacity result.memory_seats ≡ vec_capacity closing.memory_seats) }
{
    let ClosingRoom {
        mut intake_seats,
        mut memory_seats,
        mut senders,
    } = closing;
    for hand in hands {
        let SessionHand {
            intake,
            memory,
            sender,
        } = hand;
        intake_seats.push_reserved(intake);
        memory_seats.push_reserved(memory);
        senders.push_reserved(sender);
    }
    ClosingRoom {
        intake_seats,
        memory_seats,
        senders,
    }
}
