/// How a session ends.
#[derive(Clone, Copy, Debug, PartialEq, Eq)]
pub enum Finish {
    /// Every answer that is owed is received first.
    Drain,
    /// At once, without the answers that are still to come.
    Abort,
}
