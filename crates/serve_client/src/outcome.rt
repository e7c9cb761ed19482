use host_io::Disk;
use host_report::Report;
use host_worker::Served;

/// What a server leaves: its report where it kept its histories, the disk, and how many records
/// were sent.
#[derive(Drop)]
pub struct Outcome<D: Disk> {
    pub report: Option<(Report, Served)>,
    pub disk: D,
    pub sent: u32,
}
