/// What a turn did.
#[derive(Clone, Copy, Debug, PartialEq, Eq)]
pub enum Turn {
    /// One record was taken and carried out, or one kept answer handed on.
    Did,
    /// Nothing could be done at any session.
    Idle,
    /// Every session is closed.
    AllClosed,
}
