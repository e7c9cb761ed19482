//! Requests of each kind.
use host_record::Request;

/// A request with this opcode that names nothing.
pub fn request(command: u32, reqid: u32) -> Request {
    Request {
        command,
        reqid,
        group: 0,
        vmoid: 0,
        length: 0,
        vmo_offset: 0,
        dev_offset: 0,
    }
}

pub fn read(reqid: u32, vmoid: u16, vmo_offset: u64, dev_offset: u64, length: u32) -> Request {
    let plain = request(1, reqid);
    Request {
        vmoid,
        length,
        vmo_offset,
        dev_offset,
        ..plain
    }
}

pub fn flush(reqid: u32) -> Request {
    request(3, reqid)
}

pub fn trim(reqid: u32, dev_offset: u64, length: u32) -> Request {
    let plain = request(4, reqid);
    Request {
        length,
        dev_offset,
        ..plain
    }
}

pub fn close(reqid: u32, vmoid: u16) -> Request {
    let plain = request(5, reqid);
    Request { vmoid, ..plain }
}

/// The request as a member of this group.
pub fn member(request: Request, group: u16) -> Request {
    Request {
        command: request.command | 0x800,
        group,
        ..request
    }
}

/// The request as the member that closes this group.
pub fn last(request: Request, group: u16) -> Request {
    Request {
        command: request.command | 0x400,
        group,
        ..request
    }
}
