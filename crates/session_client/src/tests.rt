//! Sessions by their calls.
ghost use Rattle.std.specs.Prelude.{◌≡◌};

mod abort;
mod depth;
mod ends;
mod ids;
mod refusals;
mod threads;

use crate::{Desk, Sizes};
use host_record::Request;
use std::sync::Wait;

// A session with 4,096 frames and rings of 16 elements.
fn plain(records: u32, events: u64) -> Sizes
    ensures { result ≡ record { frames = 4096; depth = 16; records = records; events = events } }
{
    Sizes {
        frames: 4096,
        depth: 16,
        records,
        events,
    }
}

fn request(command: u32, reqid: u32) -> Request {
    Request {
        command,
        reqid,
        group: 0,
        vmoid: 0,
        length: 0,
        vmo_offset: 0,
        dev_offset: 0,
    }
}

fn flush(reqid: u32) -> Request {
    request(3, reqid)
}

fn close(reqid: u32, vmoid: u16) -> Request {
    let plain = request(5, reqid);
    Request { vmoid, ..plain }
}

fn read(reqid: u32, vmoid: u16) -> Request {
    let plain = request(1, reqid);
    Request {
        vmoid,
        length: 1,
        ..plain
    }
}

// A trim of one block.
fn trim(reqid: u32, dev_offset: u64) -> Request {
    let plain = request(4, reqid);
    Request {
        length: 1,
        dev_offset,
        ..plain
    }
}

// A flush that is a member of group 3.
fn member(reqid: u32) -> Request {
    let plain = request(0x803, reqid);
    Request { group: 3, ..plain }
}

// A flush that closes group 3.
fn last(reqid: u32) -> Request {
    let plain = request(0x403, reqid);
    Request { group: 3, ..plain }
}

// The next answer's status and number.
fn answer<R: Wait>(rt: &R, desk: &mut Desk) -> Option<(i32, u32)> {
    let response = desk.receive(rt)?;
    Some((response.status, response.reqid))
}
