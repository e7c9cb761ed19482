//! The text of a report and of its summary, put into a sink.

mod counts;
mod entry;
mod event;
mod report;
mod row;
mod session;
mod step;
mod summary;

pub use report::write_report;
pub use summary::write_summary;
