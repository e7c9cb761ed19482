use host_record::Status;

/// How a closed instance ended.
#[derive(Clone, Copy, Debug, PartialEq, Eq)]
pub struct GroupEnd {
    /// That of the earliest member that failed.
    pub status: Status,
    /// How many members it had.
    pub count: u32,
    /// Those of the closing member.
    pub reqid: u32,
    pub index: u32,
    /// The greatest of its members' fronts.
    pub device_front: u64,
    pub memory_front: u64,
}
