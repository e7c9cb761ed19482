// Why a step failed.
use thiserror::Error;

#[derive(Clone, Copy, Debug, PartialEq, Eq, Error)]
pub enum StepError {
    /// The disk failed, and its count of faults rose. The step was entered with this fault.
    #[error("the disk failed")]
    Fault,
    /// Memory was refused, and nothing was entered.
    #[error("out of memory")]
    Oom,
}
