//! A number that is used again, on one thread.
ghost use Rattle.std.specs.Prelude.{◌≡◌, length};
ghost use Rattle.host_group.specs.Seats.{IsAdmitting, admitted, back, next};

use host_group::{CellBusy, CellSeat, Cells, GroupEnd, PlainCells};
use host_record::Status;
use std::test::*;

/// A call answered otherwise than it should.
#[derive(Debug, Drop)]
struct Surprise;

// The end of the first instance. Its number is busy until then, and takes a member after it.
fn use_again(cells: Cells, mut seat: CellSeat) -> Result<GroupEnd, Surprise>
    requires { IsAdmitting cells seat × (length (admitted seat) ≡ length (back seat))
        × (next seat ≡ 0) }
{
    let Ok(mut first) = cells.admit(&mut seat, 3, 0, 7, true) else {
        return Err(Surprise);
    };
    let Err(CellBusy) = cells.admit(&mut seat, 3, 1, 8, false) else {
        return Err(Surprise);
    };
    let end = cells.settle(&mut first, 3, 0, Status::Io, 5, 6);
    let Ok(mut second) = cells.admit(&mut seat, 3, 1, 8, true) else {
        return Err(Surprise);
    };
    cells.settle(&mut second, 3, 1, Status::Ok, 0, 0);
    cells.join_right(&mut seat, first);
    cells.join_right(&mut seat, second);
    cells.close(seat);
    end.ok_or(Surprise)
}

fn first_end() -> GroupEnd {
    GroupEnd {
        status: Status::Io,
        count: 1,
        reqid: 7,
        index: 0,
        device_front: 5,
        memory_front: 6,
    }
}

#[test]
fn group_cell(rt: HostRuntime) -> Result<(), Fail> {
    let (cells, seat) = Cells::new(rt.alloc())?;
    let end = use_again(cells, seat)?;
    assert!(rt; end == first_end());
    Ok(())
}

// The same, by the plain cells.
fn use_again_plainly() -> Result<GroupEnd, Surprise> {
    let mut cells = PlainCells::new();
    let Ok(()) = cells.admit(3, 0, 7, true) else {
        return Err(Surprise);
    };
    let Err(CellBusy) = cells.admit(3, 1, 8, false) else {
        return Err(Surprise);
    };
    let end = cells.settle(3, 0, Status::Io, 5, 6);
    let Ok(()) = cells.admit(3, 1, 8, true) else {
        return Err(Surprise);
    };
    end.ok_or(Surprise)
}

#[test]
fn group_cell_of_one_thread(rt: HostRuntime) -> Result<(), Fail> {
    let end = use_again_plainly()?;
    assert!(rt; end == first_end());
    Ok(())
}
