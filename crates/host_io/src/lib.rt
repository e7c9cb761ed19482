//! The outside as traits, and objects in memory that stand for it.
#![tactic(auto)]

mod copy;
mod counts;
mod disk;
mod fails;
mod flat;
mod gate;
mod mem_disk;
mod mem_sink;
mod mem_source;
mod sink;
mod source;

pub use copy::{copy_image, fresh_bytes, fresh_is_image, joined_is_cut};
pub use counts::Counts;
pub use disk::{Disk, DiskError};
pub use fails::{CallKind, FailAt};
pub use gate::{Gate, OpenGate};
pub use mem_disk::MemDisk;
pub use mem_sink::MemSink;
pub use mem_source::MemSource;
pub use sink::{Sink, SinkFailed};
pub use source::{Source, SourceFailed};
