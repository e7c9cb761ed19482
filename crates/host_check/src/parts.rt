//! Which parts of a session and of a run are as they have to be.
ghost use Rattle.std.specs.Prelude.{◌≡◌, ◌&&◌};

/// The parts of a session.
#[derive(Clone, Copy, Debug, PartialEq, Eq)]
pub struct SessionParts {
    /// The records were taken in order, with their verdicts, and the log ends as it has to.
    pub taken: bool,
    /// Each record taken is carried out, and no other has a step.
    pub carried: bool,
    /// Answers were received as they are due.
    pub answered: bool,
    /// The buffers' history is what it has to be.
    pub buffers: bool,
    /// The order rule is kept.
    pub ordered: bool,
}

/// The parts of a run.
#[derive(Clone, Copy, Debug, PartialEq, Eq)]
pub struct RunParts {
    /// The sessions are numbered from 1.
    pub numbers: bool,
    /// Each of them is lawful.
    pub sessions: bool,
    /// The steps are those of the sessions and then the closing flush.
    pub closing: bool,
    /// They are one legal history of the image.
    pub legal: bool,
    /// Frames ran short only where they had to.
    pub frames: bool,
    /// All pages are home.
    pub home: bool,
}

impl SessionParts {
    /// Whether all of them are.
    pub fn are_whole(self) -> bool
        ensures { result
            ≡ (self.taken && self.carried && self.answered && self.buffers && self.ordered) }
    {
        self.taken && self.carried && self.answered && self.buffers && self.ordered
    }
}

impl RunParts {
    /// Whether all of them are.
    pub fn are_whole(self) -> bool
        ensures { result
            ≡ (self.numbers && self.sessions && self.closing && self.legal && self.frames
            && self.home) }
    {
        self.numbers && self.sessions && self.closing && self.legal && self.frames && self.home
    }
}
