//! What a state behind a book has to tell.
ghost use Rattle.std.specs.Prelude.{◌≡◌, ℕ, List, length};

/// A state that stores its history, a list of entries that only grows.
pub trait Story {
    /// What one turn adds, such as a device step.
    type Entry;

    /// Plain data about the state that never changes: a size, an opening, or which other book a
    /// seat in the state is of.
    type Fixed;

    /// The entries, oldest first.
    ghost story: { Self → List Self.Entry };

    /// The number of the seat that made an entry.
    ghost maker: { Self.Entry → ℕ };

    /// The fixed part.
    ghost fixed: { Self → Self.Fixed };

    /// The number of entries.
    fn length(&self) -> u64
        ensures { result ≡ length (story self.now) };
}
