//! Records end.
ghost use Rattle.std.specs.Prelude.{◌≡◌, ◌≢◌};
ghost use Rattle.host_group.specs.Seats.{cells_id, seat_cells};
ghost use Rattle.intake_client.specs.declared.flight.Flight.{Flight};
ghost use Rattle.intake_client.specs.Flights.{CanLand, Flies, HasLanded, IsAsMade};

use crate::answer::{lone, settle};
use crate::flight::Flight;
use host_group::{CellSeat, Cells};
use host_intake::{Intake, RecordEnd, Waiting};
use host_record::{Request, Status};
use host_rings::Envelope;

/// Ends a record that flies, with this outcome. The answer that this makes due, if it makes one, is
/// kept. It tells whether one was.
pub fn land(
    hand: u32,
    intake: &mut Intake,
    cells: &Cells,
    envelope: &Envelope,
    outcome: Status,
    right: Option<CellSeat>,
) -> bool
    requires flight { CanLand hand intake.old envelope.now right }
    requires cells { seat_cells intake.old.cell_seat ≡ cells_id cells.now }
    ensures { HasLanded hand envelope.now.index intake.old intake.new }
{
    let request = Request::from_bytes(&envelope.bytes);
    let index = envelope.index;
    let end = RecordEnd {
        outcome,
        device_front: 0,
        memory_front: 0,
    };
    match right {
        None => {
            let answer = lone(&request, index, end);
            intake.landed(hand, index, end, Some(answer), true, cells, None);
            true
        }
        Some(mut right) => {
            let answer = settle(cells, &mut right, request.group, index, end);
            let kept = answer.is_some();
            intake.landed(hand, index, end, answer, kept, cells, Some(right));
            kept
        }
    }
}

/// Ends a record that flies, with the status that it has. What else flies goes on flying.
pub fn land_flight(hand: u32, intake: &mut Intake, cells: &Cells, flight: Flight) -> bool
    requires flight { Flies hand intake.old flight }
    requires cells { seat_cells intake.old.cell_seat ≡ cells_id cells.now }
    ensures landed { HasLanded hand flight.envelope.index intake.old intake.new }
    ensures keeps { (f : Flight) → flight.envelope.index ≢ f.envelope.index
        → Flies hand intake.old f → Flies hand intake.new f }
{
    intake.vouch();
    let Flight {
        envelope,
        status,
        right,
    } = flight;
    land(hand, intake, cells, &envelope, status, right)
}

/// Takes a close that waited for pins, and ends it well. It tells whether an answer was kept, and
/// nothing where no close of that index waits. What flies goes on flying.
pub fn land_waiting(hand: u32, intake: &mut Intake, cells: &Cells, index: u32) -> Option<bool>
    requires cells { seat_cells intake.old.cell_seat ≡ cells_id cells.now }
    ensures made { IsAsMade intake.old intake.new }
    ensures keeps { (f : Flight) → Flies hand intake.old f → Flies hand intake.new f }
{
    match intake.waiting(index) {
        Some(waiting) => Some(land_waited(hand, intake, cells, waiting)),
        None => None,
    }
}

fn land_waited(hand: u32, intake: &mut Intake, cells: &Cells, waiting: Waiting) -> bool
    requires flight { CanLand hand intake.old waiting.envelope waiting.right }
    requires cells { seat_cells intake.old.cell_seat ≡ cells_id cells.now }
    ensures { HasLanded hand waiting.envelope.index intake.old intake.new }
{
    let Waiting { envelope, right } = waiting;
    land(hand, intake, cells, &envelope, Status::Ok, right)
}
