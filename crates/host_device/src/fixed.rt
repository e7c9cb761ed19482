//! The fixed part of a device.
use std::snapshot::Snapshot;

/// What never changes in a device: how many blocks it has, their size in bytes, the disk as
/// `Device::new` found it, and whether its history is kept in memory.
pub struct DeviceFixed<D> {
    pub blocks: u64,
    pub size: u32,
    pub opening: Snapshot<D>,
    pub keeps: bool,
}
