//! Sizes and ranges of blocks, the lists that every crate shares, and the model of a disk: what
//! calls, crashes and a history of changes make of its blocks.
#![tactic(auto)]

mod bytes;
mod laws;
mod oom;
mod op;
mod range;
mod reserved_list;
mod size;

pub use bytes::Bytes;
pub use laws::{
    call_keeps, change_keeps, crash_inside_call, crash_of_kept, flush_keeps, picked_is_crash,
    run_keeps, synced_is_durable, synced_reads, written_reads,
};
pub use oom::Oom;
pub use op::Op;
pub use range::Range;
pub use reserved_list::ReservedList;
pub use size::BlockSize;
