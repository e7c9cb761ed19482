/// A request record on its way to the hands.
#[derive(Clone, Copy, Debug, PartialEq, Eq, Drop)]
pub struct Envelope {
    /// The record, not yet read.
    pub bytes: [u8; 32],
    /// How many envelopes were pushed before it.
    pub index: u32,
    /// How long its maker knew the device history to be.
    pub device_front: u64,
    /// How long its maker knew the buffer history to be.
    pub memory_front: u64,
}
