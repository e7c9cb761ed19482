//! What is changed in the base report, and the part that this breaks.

use super::edit::Edit;
use super::lists::{Act, Call, Entry};
use host_block::Op;
use host_model::TakenRow;
use host_record::Status;

/// A part of what makes a report lawful.
#[derive(Clone, Copy, Debug, PartialEq, Eq)]
pub enum Part {
    Carried,
    Answered,
    Buffers,
    Ordered,
    Closing,
    Legal,
    Home,
}

#[derive(Clone, Copy)]
pub struct Case {
    pub what: &'static str,
    /// The number of the session that is changed.
    pub session: u32,
    pub log: Edit<Call>,
    pub rows: Edit<TakenRow>,
    pub entries: Edit<Entry>,
    pub acts: Edit<Act>,
    /// The number of closing flushes.
    pub flushes: u32,
    pub frames_home: u32,
    pub broken: Option<Part>,
}

pub const BASE: Case = Case {
    what: "nothing",
    session: 1,
    log: Edit::None,
    rows: Edit::None,
    entries: Edit::None,
    acts: Edit::None,
    flushes: 1,
    frames_home: 4096,
    broken: None,
};

pub const CASES: [Case; 18] = [
    BASE,
    Case {
        what: "an answer twice",
        log: Edit::Put(7, Call::Answer(Status::Ok, 13, 3, 4)),
        broken: Some(Part::Answered),
        ..BASE
    },
    Case {
        what: "an answer too few after a drain",
        log: Edit::Without(10),
        broken: Some(Part::Answered),
        ..BASE
    },
    Case {
        what: "a wrong count",
        log: Edit::Set(6, Call::Answer(Status::Ok, 13, 3, 3)),
        broken: Some(Part::Answered),
        ..BASE
    },
    Case {
        what: "a wrong reqid",
        log: Edit::Set(6, Call::Answer(Status::Ok, 10, 3, 4)),
        broken: Some(Part::Answered),
        ..BASE
    },
    Case {
        what: "the last error in place of the first",
        session: 2,
        log: Edit::Set(4, Call::Answer(Status::NotFound, 3, 3, 3)),
        broken: Some(Part::Answered),
        ..BASE
    },
    Case {
        what: "a step outside the partition",
        session: 6,
        acts: Edit::Set(1, Act(0, 0, Op::Write, 64, &[0], false)),
        broken: Some(Part::Carried),
        ..BASE
    },
    Case {
        what: "a step after a faulted one",
        session: 5,
        acts: Edit::Put(5, Act(2, 2, Op::Read, 36, &[], true)),
        broken: Some(Part::Carried),
        ..BASE
    },
    Case {
        what: "a refused record with a step",
        session: 2,
        acts: Edit::Put(0, Act(0, 0, Op::Flush, 0, &[], false)),
        broken: Some(Part::Carried),
        ..BASE
    },
    Case {
        what: "a read with stale bytes",
        log: Edit::Set(11, Call::Show(1, 4, &[0xa1, 0xa1, 0xa1, 37])),
        entries: Edit::Set(18, Entry::Land(5, 3, 1, 7, 37)),
        acts: Edit::Set(8, Act(5, 3, Op::Read, 37, &[37], false)),
        broken: Some(Part::Legal),
        ..BASE
    },
    Case {
        what: "a write step without its lift",
        entries: Edit::Without(3),
        broken: Some(Part::Buffers),
        ..BASE
    },
    Case {
        what: "a release before a done",
        entries: Edit::Move(21, 19),
        broken: Some(Part::Buffers),
        ..BASE
    },
    Case {
        what: "a fill after a release",
        log: Edit::Put(12, Call::Fill(1, 0, 1, 7, true)),
        entries: Edit::Put(22, Entry::Fill(1, 0, 1, 7)),
        broken: Some(Part::Buffers),
        ..BASE
    },
    Case {
        what: "an id used twice",
        log: Edit::Put(1, Call::Attach(1, 1)),
        entries: Edit::Put(1, Entry::Attach(1, 1, 0)),
        broken: Some(Part::Buffers),
        ..BASE
    },
    Case {
        what: "an answer received before its step",
        acts: Edit::Move(4, 0),
        broken: Some(Part::Ordered),
        ..BASE
    },
    Case {
        what: "two closing flushes",
        flushes: 2,
        broken: Some(Part::Closing),
        ..BASE
    },
    Case {
        what: "no closing flush",
        flushes: 0,
        broken: Some(Part::Closing),
        ..BASE
    },
    Case {
        what: "a page that isn't home",
        frames_home: 4095,
        broken: Some(Part::Home),
        ..BASE
    },
];
