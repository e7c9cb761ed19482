/// What a desk keeps of a record.
#[derive(Clone, Copy, Debug, PartialEq, Eq, Drop)]
pub struct Row {
    pub device_front: u64,
}
