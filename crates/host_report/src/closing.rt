/// How the closing flush went.
#[derive(Clone, Copy, Debug, PartialEq, Eq)]
pub enum Closing {
    Good,
    Fault,
    /// It was left out on purpose.
    Cut,
    /// It was refused memory.
    NoMemory,
}
