//! A record is settled.
ghost use Rattle.std.specs.Prelude.{◌≡◌};
ghost use Rattle.host_group.specs.Seats.{cells_id};
ghost use Rattle.host_intake.specs.Answers.{answer_owed, group_slip, lone_slip};
ghost use Rattle.session_client.specs.RightUsed.{HaveSettled, MaySettle};

use host_group::{CellSeat, Cells, GroupEnd};
use host_intake::RecordEnd;
use host_record::{Request, Response};
use host_rings::Slip;

/// Uses the right of a member, where there is one, and tells the answer that the record's end makes
/// due.
pub fn settled(
    cells: &Cells,
    request: &Request,
    index: u32,
    end: RecordEnd,
    right: Option<CellSeat>,
) -> (Option<Slip>, Option<CellSeat>)
    requires { MaySettle (cells_id cells.now) request.now.group index right }
    ensures answer { result.0 ≡ answer_owed request.now index end result.1 }
    ensures right { HaveSettled (cells_id cells.now) request.now.group end right result.1 }
{
    let Some(mut right) = right else {
        return (Some(lone(request, index, end)), None);
    };
    let told = cells.settle(
        &mut right,
        request.group,
        index,
        end.outcome,
        end.device_front,
        end.memory_front,
    );
    match told {
        Some(e) => (Some(of_group(request.group, e)), Some(right)),
        None => (None, Some(right)),
    }
}

// The answer to a lone record.
fn lone(request: &Request, index: u32, end: RecordEnd) -> Slip
    ensures { result ≡ lone_slip request.now index end }
{
    let response = Response {
        status: end.outcome.number(),
        reqid: request.reqid,
        group: 0,
        count: 1,
    };
    Slip {
        index,
        bytes: response.to_bytes(),
        device_front: end.device_front,
        memory_front: end.memory_front,
    }
}

// The answer to an instance of a group.
fn of_group(group: u16, end: GroupEnd) -> Slip
    ensures { result ≡ group_slip group end }
{
    let response = Response {
        status: end.status.number(),
        reqid: end.reqid,
        group,
        count: end.count,
    };
    Slip {
        index: end.index,
        bytes: response.to_bytes(),
        device_front: end.device_front,
        memory_front: end.memory_front,
    }
}
