//! The next record is taken.
ghost use Rattle.std.specs.Prelude.{◌≡◌, ◌&&◌, not, is_some};
ghost use Rattle.host_group.specs.Seats.{cells_id, seat_cells};
ghost use Rattle.host_record.specs.Command.{is_close, opcode};
ghost use Rattle.host_record.specs.Request.{request_of};
ghost use Rattle.host_turn.specs.Seats.{IsOutside, IsSameSeat, IsSeatOutside, book_id, seat_book};
ghost use Rattle.host_intake.specs.State.{plan_of_intake};
ghost use Rattle.intake_client.specs.declared.flight.Flight.{Flight};
ghost use Rattle.intake_client.specs.Flights.{Flies};
ghost use Rattle.intake_client.specs.Takes.{IsTaken};

use crate::flight::Flight;
use crate::taken::Taken;
use host_frames::Pages;
use host_group::Cells;
use host_intake::{Admission, Intake};
use host_memory::Memory;
use host_record::{Opcode, Request, Status};
use host_rings::Envelope;
use host_turn::{Book, BookSeat};
use std::sync::Wait;

/// Takes the next record. What the hand took before and still flies goes on flying.
pub fn take<R: Wait>(
    rt: &R,
    hand: u32,
    intake: &mut Intake,
    book: &Book<Memory>,
    seat: &mut BookSeat<Memory>,
    cells: &Cells,
) -> Taken
    requires book { seat_book intake.old.memory_seat ≡ book_id book.now }
    requires cells { seat_cells intake.old.cell_seat ≡ cells_id cells.now }
    requires seat { IsSeatOutside book.now seat.old }
    ensures seat { IsSameSeat seat.old seat.new × IsOutside seat.new }
    ensures plan { plan_of_intake intake.new ≡ plan_of_intake intake.old }
    ensures taken { IsTaken hand intake.old intake.new result }
    ensures keeps { (f : Flight) → Flies hand intake.old f → Flies hand intake.new f }
{
    intake.vouch();
    match intake.admit_next(rt, hand, book, seat, cells) {
        Admission::Finished => Taken::Finished,
        Admission::AtLimit => Taken::AtLimit,
        Admission::NoRecord => Taken::NoRecord,
        Admission::Stalled => Taken::Stalled,
        Admission::Refused {
            envelope,
            status,
            right,
        } => Taken::Flying(Flight {
            envelope,
            status,
            right,
        }),
        Admission::Admitted {
            envelope,
            pages,
            right,
        } => {
            if waits(&envelope, &pages) {
                return Taken::Waits;
            }
            Taken::Flying(Flight {
                envelope,
                status: Status::Ok,
                right,
            })
        }
    }
}

// Whether a record that was admitted is a close that waits.
fn waits(envelope: &Envelope, pages: &Option<Pages>) -> bool
    ensures { result
        ≡ (is_close (opcode (request_of envelope.now.bytes)) && not (is_some pages.now)) }
{
    let request = Request::from_bytes(&envelope.bytes);
    matches!(request.opcode(), Some(Opcode::Close)) && pages.is_none()
}
