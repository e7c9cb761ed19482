use thiserror::Error;

/// Too few frames were free.
#[derive(Clone, Copy, Debug, PartialEq, Eq, Error)]
#[error("too few frames are free")]
pub struct NoFrames;
