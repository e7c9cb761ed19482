use thiserror::Error;

/// The group number has a closed instance that has not ended.
#[derive(Clone, Copy, Debug, PartialEq, Eq, Error)]
#[error("the group has a closed instance that has not ended")]
pub struct CellBusy;
