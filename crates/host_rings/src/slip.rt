/// An answer on its way to the client.
#[derive(Clone, Copy, Debug, PartialEq, Eq, Drop)]
pub struct Slip {
    /// The index of the record that it answers: a lone one, or the last of a group.
    pub index: u32,
    /// The response record.
    pub bytes: [u8; 32],
    /// How long its maker knew the device history to be.
    pub device_front: u64,
    /// How long its maker knew the buffer history to be.
    pub memory_front: u64,
}
