//! How playing a script ends, before its text is put.
ghost use Rattle.std.specs.Prelude.{◌≡◌, ◌↔◌, IfSome, IsSome};

use host_io::MemDisk;
use host_report::Report;
use host_start::{ImageCopy, StartError};
use host_worker::Served;

/// A script was played: the disk that was handed in, the copy that was played on, if there was one,
/// and the report.
#[derive(Drop)]
pub struct PlayedRun<D> {
    pub disk: D,
    pub dry: Option<MemDisk>,
    pub report: Report,
    pub served: Served,
}

/// No session began: the disk that was handed in, why, and the copy where its content is the cause.
#[derive(Drop)]
pub struct NoRun<D> {
    pub disk: D,
    pub dry: Option<MemDisk>,
    pub error: StartError,
}

/// The disk of a copy.
pub fn disk_of(copy: Option<ImageCopy>) -> Option<MemDisk>
    ensures some { IsSome result ↔ IsSome copy }
    ensures disk { IfSome result (λ disk. IfSome copy (λ copy. disk ≡ copy.disk)) }
{
    match copy {
        Some(copy) => Some(copy.disk),
        None => None,
    }
}
