//! What a run leaves.

use crate::status::RunStatus;
use host_io::MemDisk;
use host_report::Report;
use host_worker::Served;

/// The status and the disk that was handed in. A run on a copy hands out the copy, where its
/// sessions were played or its content is the cause of the refusal. Where sessions were played
/// there are their report and what says that a server served it.
#[derive(Drop)]
pub struct Outcome<D> {
    pub status: RunStatus,
    pub disk: D,
    pub dry: Option<MemDisk>,
    pub report: Option<Report>,
    pub served: Option<Served>,
}
