//! What a run is played on, and what it gives.
use host_block::BlockSize;
use host_gpt::Which;
use host_io::Disk;
use host_report::Report;
use host_worker::Served;

/// What a script is played on: an attached disk with nothing pending, its blocks, and the header
/// that its table was read by.
#[derive(Drop)]
pub struct Ground<D: Disk> {
    pub disk: D,
    pub blocks: u64,
    pub size: BlockSize,
    pub which: Which,
}

/// How it is played: so many workers beside the clients, so many elements in each ring, and with or
/// without a flush at the end.
#[derive(Clone, Copy, Debug, PartialEq, Eq)]
pub struct Setting {
    pub workers: u32,
    pub depth: u32,
    pub cut: bool,
}

/// The report of a run, the proof that a server served it, and the disk that it was played on.
#[derive(Drop)]
pub struct Played<D: Disk> {
    pub report: Report,
    pub served: Served,
    pub disk: D,
}

/// Want of memory before the sessions began. It hands the disk back.
#[derive(Drop)]
pub struct NoPlay<D: Disk> {
    pub disk: D,
}
