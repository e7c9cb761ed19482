use crate::closing::Closing;
use crate::session::SessionReports;
use host_block::BlockSize;
use host_gpt::Which;
use host_model::Steps;

/// A whole run.
#[derive(Drop)]
pub struct Report {
    /// The blocks of the image.
    pub blocks: u64,
    pub size: BlockSize,
    /// The header that the partition table was read by.
    pub which: Which,
    pub sessions: SessionReports,
    pub steps: Steps,
    pub closing: Closing,
    /// The pages that are back in the pool.
    pub frames_home: u32,
}
