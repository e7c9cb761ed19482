// The calls of a gate, with a fact for each, so that a contract can say that they were made.
ghost use Rattle.std.specs.Prelude.{ℕ};

use host_io::Gate;

/// A gate, with a fact for each of its calls, which nothing but the call gives.
pub(crate) trait Calls {
    /// The call before was made for this record of this session.
    ghost began: { Self → ℕ → ℕ → Type 0 };

    /// The call after was.
    ghost ended: { Self → ℕ → ℕ → Type 0 };

    fn before(&self, session: u32, index: u32)
        ensures { began self.now session index };

    fn after(&self, session: u32, index: u32)
        ensures { ended self.now session index };
}

/// The gate that a hand was given. What its calls do is its own, so their facts say no more.
#[derive(Drop)]
pub(crate) struct Watched<'a, G: Gate> {
    pub(crate) gate: &'a G,
}

impl<'a, G: Gate> Calls for Watched<'a, G> {
    ghost began = { λ _ _ _. Unit {0} };

    ghost ended = { λ _ _ _. Unit {0} };

    fn before(&self, session: u32, index: u32) {
        self.gate.before(session, index);
    }

    fn after(&self, session: u32, index: u32) {
        self.gate.after(session, index);
    }
}
