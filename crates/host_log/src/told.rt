//! What tells an entry that is never made.

/// A view of what an entry has, for a log that keeps none.
pub trait Told {
    type Entry: Drop;

    /// The entry that is told.
    ghost entry: { Self → Self.Entry };
}
