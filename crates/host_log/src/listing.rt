//! What tells a whole list of entries without having it.
ghost use Rattle.std.specs.Prelude.{◌≡◌, List, length};

/// A view of entries that were never made.
pub trait Listing {
    type Entry: Drop;

    /// The entries that are told, oldest first.
    ghost entries: { Self → List Self.Entry };

    /// How many there are.
    fn count(&self) -> u64
        ensures { result ≡ length (entries self.now) };
}
