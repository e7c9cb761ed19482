//! Sessions that read and write.

use super::lists::{Act, Call, DONE, Entry, FAULTED, Lists};
use host_block::Op;
use host_record::{Finish, Status};

/// Four writes of one group, a flush, and a read that is shown.
pub const REALISTIC: Lists = Lists {
    number: 1,
    log: &[
        Call::Attach(8, 1),
        Call::Fill(1, 0, 4, 0xa1, true),
        Call::Send(0, 0x802, 10, 3, 1, 1, 0, 0),
        Call::Send(1, 0x802, 11, 3, 1, 1, 1, 1),
        Call::Send(2, 0x802, 12, 3, 1, 1, 2, 2),
        Call::Send(3, 0xc02, 13, 3, 1, 1, 3, 3),
        Call::Answer(Status::Ok, 13, 3, 4),
        Call::Send(4, 3, 20, 0, 0, 0, 0, 0),
        Call::Answer(Status::Ok, 20, 0, 1),
        Call::Send(5, 1, 30, 0, 1, 4, 4, 0),
        Call::Answer(Status::Ok, 30, 0, 1),
        Call::Show(1, 4, &[0xa1, 0xa1, 0xa1, 0xa1]),
        Call::Drain,
    ],
    rows: &[DONE, DONE, DONE, DONE, DONE, DONE],
    entries: &[
        Entry::Attach(1, 8, 0),
        Entry::Fill(1, 0, 4, 0xa1),
        Entry::Pin(0, 1),
        Entry::Lift(0, 0, 1, 0, 0xa1),
        Entry::Done(0, 1),
        Entry::Pin(1, 1),
        Entry::Pin(2, 1),
        Entry::Lift(2, 0, 1, 2, 0xa1),
        Entry::Done(2, 1),
        Entry::Lift(1, 0, 1, 1, 0xa1),
        Entry::Done(1, 1),
        Entry::Pin(3, 1),
        Entry::Lift(3, 0, 1, 3, 0xa1),
        Entry::Done(3, 1),
        Entry::Pin(5, 1),
        Entry::Land(5, 0, 1, 4, 0xa1),
        Entry::Land(5, 1, 1, 5, 0xa1),
        Entry::Land(5, 2, 1, 6, 0xa1),
        Entry::Land(5, 3, 1, 7, 0xa1),
        Entry::Done(5, 1),
        Entry::Show(1, 4, 4),
        Entry::Release(1),
    ],
    acts: &[
        Act(0, 0, Op::Write, 34, &[0xa1], false),
        Act(2, 0, Op::Write, 36, &[0xa1], false),
        Act(1, 0, Op::Write, 35, &[0xa1], false),
        Act(3, 0, Op::Write, 37, &[0xa1], false),
        Act(4, 0, Op::Flush, 0, &[], false),
        Act(5, 0, Op::Read, 34, &[0xa1], false),
        Act(5, 1, Op::Read, 35, &[0xa1], false),
        Act(5, 2, Op::Read, 36, &[0xa1], false),
        Act(5, 3, Op::Read, 37, &[0xa1], false),
    ],
    finish: Finish::Drain,
};

/// A write, a flush that faults, and a read that faults at its second block.
pub const FAULTS: Lists = Lists {
    number: 5,
    log: &[
        Call::Attach(8, 1),
        Call::Fill(1, 0, 2, 0xc1, true),
        Call::Send(0, 2, 1, 0, 1, 2, 0, 0),
        Call::Answer(Status::Ok, 1, 0, 1),
        Call::Send(1, 3, 2, 0, 0, 0, 0, 0),
        Call::Answer(Status::Io, 2, 0, 1),
        Call::Send(2, 1, 3, 0, 1, 4, 4, 0),
        Call::Answer(Status::Io, 3, 0, 1),
        Call::Show(1, 4, &[0xc1, 0]),
        Call::Drain,
    ],
    rows: &[DONE, FAULTED, FAULTED],
    entries: &[
        Entry::Attach(1, 8, 0),
        Entry::Fill(1, 0, 2, 0xc1),
        Entry::Pin(0, 1),
        Entry::Lift(0, 0, 1, 0, 0xc1),
        Entry::Lift(0, 1, 1, 1, 0xc1),
        Entry::Done(0, 1),
        Entry::Pin(2, 1),
        Entry::Land(2, 0, 1, 4, 0xc1),
        Entry::Done(2, 1),
        Entry::Show(1, 4, 2),
        Entry::Release(1),
    ],
    acts: &[
        Act(0, 0, Op::Write, 34, &[0xc1], false),
        Act(0, 1, Op::Write, 35, &[0xc1], false),
        Act(1, 0, Op::Flush, 0, &[], true),
        Act(2, 0, Op::Read, 34, &[0xc1], false),
        Act(2, 1, Op::Read, 35, &[], true),
    ],
    finish: Finish::Drain,
};

/// An abort: two of three records were taken, and one answer was received.
pub const ABORTED: Lists = Lists {
    number: 6,
    log: &[
        Call::Attach(1, 1),
        Call::Send(0, 2, 7, 0, 1, 1, 0, 0),
        Call::Send(1, 2, 7, 0, 1, 1, 0, 1),
        Call::Send(2, 5, 7, 0, 1, 0, 0, 0),
        Call::Answer(Status::Ok, 7, 0, 1),
        Call::Abort,
    ],
    rows: &[DONE, DONE],
    entries: &[
        Entry::Attach(1, 1, 0),
        Entry::Pin(0, 1),
        Entry::Pin(1, 1),
        Entry::Lift(1, 0, 1, 0, 0),
        Entry::Lift(0, 0, 1, 0, 0),
        Entry::Done(0, 1),
        Entry::Done(1, 1),
        Entry::Release(1),
    ],
    acts: &[
        Act(1, 0, Op::Write, 35, &[0], false),
        Act(0, 0, Op::Write, 34, &[0], false),
    ],
    finish: Finish::Abort,
};
