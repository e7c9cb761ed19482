//! The device: every step on the disk is one entry of one legal history.
#![tactic(auto)]

mod cache_calls;
mod device;
mod error;
mod fixed;
mod laws;
mod steps;
mod story;

pub use device::{Device, NoDevice};
pub use error::StepError;
pub use fixed::DeviceFixed;
pub use host_model::{Step, Steps};
pub use laws::{crash_after_flush, crash_inside_step};
