//! Real files and streams, which tell nothing of their content, and the words of the program.
#![tactic(auto)]

mod file_disk;
mod raw_file;
mod real_file;
mod std_sink;
mod std_source;
mod words;

pub use file_disk::FileDisk;
pub use raw_file::{OpenError, RawFailed, RawFile};
pub use real_file::RealFile;
pub use std_sink::StdSink;
pub use std_source::StdSource;
pub use words::{WordsError, program_words};
