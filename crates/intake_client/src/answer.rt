//! The answers that the end of a record makes due.
ghost use Rattle.std.specs.Prelude.{◌≡◌};
ghost use Rattle.host_group.specs.Seats.{IsRight, IsSeatUnused, IsUsed, row};
ghost use Rattle.host_intake.specs.Answers.{group_slip, lone_slip, row_slip};

use host_group::{CellSeat, Cells, GroupEnd};
use host_intake::RecordEnd;
use host_record::{Request, Response};
use host_rings::Slip;

/// The answer to a lone record.
pub(crate) fn lone(r: &Request, index: u32, end: RecordEnd) -> Slip
    ensures { result ≡ lone_slip r.now index end }
{
    let response = Response {
        status: end.outcome.number(),
        reqid: r.reqid,
        group: 0,
        count: 1,
    };
    Slip {
        index,
        bytes: response.to_bytes(),
        device_front: end.device_front,
        memory_front: end.memory_front,
    }
}

fn of_group(number: u16, end: &GroupEnd) -> Slip
    ensures { result ≡ group_slip number end.now }
{
    let response = Response {
        status: end.status.number(),
        reqid: end.reqid,
        group: number,
        count: end.count,
    };
    Slip {
        index: end.index,
        bytes: response.to_bytes(),
        device_front: end.device_front,
        memory_front: end.memory_front,
    }
}

/// Settles a member, and gives the answer to its instance where it was the last one.
pub(crate) fn settle(
    cells: &Cells,
    right: &mut CellSeat,
    number: u16,
    index: u32,
    end: RecordEnd,
) -> Option<Slip>
    requires right { IsRight cells.now number right.old × IsSeatUnused right.old }
    requires index { (row right.old).member.index ≡ index }
    ensures right { IsRight cells.now number right.new × IsUsed right.new
        × ((row right.new).member ≡ (row right.old).member) }
    ensures told { ((row right.new).status ≡ end.outcome)
        × ((row right.new).device_front ≡ end.device_front)
        × ((row right.new).memory_front ≡ end.memory_front) }
    ensures answer { result ≡ row_slip (row right.new) }
{
    let ended = cells.settle(
        right,
        number,
        index,
        end.outcome,
        end.device_front,
        end.memory_front,
    );
    match ended {
        Some(ended) => Some(of_group(number, &ended)),
        None => None,
    }
}
