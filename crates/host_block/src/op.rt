/// What a step of a device does.
#[derive(Clone, Copy, Debug, PartialEq, Eq)]
pub enum Op {
    /// Reads one block.
    Read,
    /// Writes one block.
    Write,
    /// Makes one block read as zero.
    Trim,
    /// Makes all that was written durable.
    Flush,
}
