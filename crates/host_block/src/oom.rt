use thiserror::Error;

/// Want of memory: the one answer without a cause that a contract names.
#[derive(Clone, Copy, Debug, PartialEq, Eq, Error)]
#[error("out of memory")]
pub struct Oom;
