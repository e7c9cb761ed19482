//! Sessions with groups.

use super::lists::{Act, Call, DONE, Entry, Lists, NO_BUFFER, OUTSIDE};
use host_block::Op;
use host_record::{Finish, Status};

/// A group whose first record and last record are refused.
pub const FAILED: Lists = Lists {
    number: 2,
    log: &[
        Call::Attach(1, 1),
        Call::Send(0, 0x801, 1, 3, 1, 1, 0, 30),
        Call::Send(1, 0x803, 2, 3, 0, 0, 0, 0),
        Call::Send(2, 0xc01, 3, 3, 9, 1, 0, 0),
        Call::Answer(Status::OutOfRange, 3, 3, 3),
        Call::Drain,
    ],
    rows: &[OUTSIDE, DONE, NO_BUFFER],
    entries: &[Entry::Attach(1, 1, 0), Entry::Release(1)],
    acts: &[Act(1, 0, Op::Flush, 0, &[], false)],
    finish: Finish::Drain,
};

/// A group number used again, answered in the other order.
pub const AGAIN: Lists = Lists {
    number: 3,
    log: &[
        Call::Send(0, 0xc03, 1, 3, 0, 0, 0, 0),
        Call::Send(1, 0xc03, 2, 3, 0, 0, 0, 0),
        Call::Answer(Status::Ok, 2, 3, 1),
        Call::Answer(Status::Ok, 1, 3, 1),
        Call::Drain,
    ],
    rows: &[DONE, DONE],
    entries: &[],
    acts: &[
        Act(1, 0, Op::Flush, 0, &[], false),
        Act(0, 0, Op::Flush, 0, &[], false),
    ],
    finish: Finish::Drain,
};

/// A group that is never closed.
pub const OPEN: Lists = Lists {
    number: 4,
    log: &[Call::Send(0, 0x803, 1, 2, 0, 0, 0, 0), Call::Drain],
    rows: &[DONE],
    entries: &[],
    acts: &[Act(0, 0, Op::Flush, 0, &[], false)],
    finish: Finish::Drain,
};
