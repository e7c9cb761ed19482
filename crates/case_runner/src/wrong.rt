//! What is wrong with a case, or differs in a play of it.

use host_block::Oom;
use std::alloc::AllocError;
use thiserror::Error;

#[derive(Debug, Drop, Error)]
pub enum Wrong {
    /// A line is none of a case, or isn't met.
    #[error("line {line}: {what}")]
    Line { line: u64, what: &'static str },
    /// Something that every play has to keep.
    #[error("{what}")]
    Play { what: &'static str },
    #[error("status {status}")]
    Status { status: u8 },
    #[error("out of memory")]
    Memory(#[from(alloc)] AllocError),
}

impl From<Oom> for Wrong {
    fn from(_error: Oom) -> Wrong {
        Wrong::Memory(AllocError)
    }
}

/// Nothing where the condition holds, else what every play has to keep.
pub fn ensure(holds: bool, what: &'static str) -> Result<(), Wrong> {
    if holds {
        Ok(())
    } else {
        Err(Wrong::Play { what })
    }
}
