//! The partition table of an image (UEFI 2.10, chapter 5): its CRC-32, the reader of its primary
//! and backup header, and sample images.
#![tactic(auto)]

mod array;
mod crc;
mod crc_table;
mod entry;
mod field;
mod found;
mod header;
mod laws;
mod read_error;
mod reader;
pub mod sample;
mod table;
mod table_error;
mod which;

pub use crc::crc32;
pub use entry::Entry;
pub use laws::{large_excludes, one_table, table_excludes};
pub use reader::read_table;
pub use table::{Entries, Table};
pub use table_error::TableError;
pub use which::Which;
