//! What a crew works at.
use host_group::{CellSeat, GroupEnd};
use host_record::Status;

/// Which members fail.
#[derive(Clone, Copy, Debug)]
pub enum Outcomes {
    /// Those with the indexes 5 and 40.
    TwoFail,
    /// One to three in every sixteen.
    SomeFail,
}

/// One instance of the number 3, and how many hands settle its members.
#[derive(Clone, Copy, Debug)]
pub struct Round {
    pub members: u32,
    pub hands: u32,
    pub outcomes: Outcomes,
}

/// A member that a hand is to settle, and the end that it was told.
#[derive(Drop)]
pub(crate) struct Task {
    pub(crate) right: CellSeat,
    pub(crate) index: u32,
    pub(crate) status: Status,
    pub(crate) end: Option<GroupEnd>,
}

impl Outcomes {
    pub(crate) fn status(self, index: u32) -> Status {
        match (self, index) {
            (Outcomes::TwoFail, 5) => Status::Io,
            (Outcomes::TwoFail, 40) => Status::NotFound,
            (Outcomes::TwoFail, _) => Status::Ok,
            (Outcomes::SomeFail, _) => match index % 16 {
                3 => Status::Io,
                5 => Status::NotFound,
                14 => Status::NoMemory,
                _ => Status::Ok,
            },
        }
    }
}

/// Fronts that rise and fall with the index.
pub(crate) fn device_front(index: u32) -> u64 {
    1000 + index as u64 * 29 % 64
}

pub(crate) fn memory_front(index: u32) -> u64 {
    500 + index as u64 * 13 % 64
}
