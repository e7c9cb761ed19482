ghost use Rattle.std.specs.Prelude.{◌≡◌};
ghost use Rattle.script_model.specs.Causes.{cause_word};

use std::fmt;

/// What is wrong with a line. Where several hold of one line, the first of this list is named.
#[derive(Clone, Copy, Debug, PartialEq, Eq)]
pub enum ScriptCause {
    /// A byte that may not stand in a word.
    BadByte,
    /// The first word begins no line.
    UnknownWord,
    /// No session was begun before.
    NoSession,
    /// The session was ended before.
    AfterEnd,
    /// Too few or too many words, or a word that is no group word in the place of one.
    WrongCount,
    /// A word that is no number, or one outside the range of its place.
    BadNumber,
    /// A word that isn't as many bytes in hexadecimal digits as its place wants.
    BadHex,
    /// A wait for more answers than are owed.
    TooMany,
}

impl ScriptCause {
    /// The word that names the cause.
    pub fn word(self) -> &'static str
        ensures { result.now ≡ cause_word self }
    {
        match self {
            ScriptCause::BadByte => "byte",
            ScriptCause::UnknownWord => "word",
            ScriptCause::NoSession => "session",
            ScriptCause::AfterEnd => "ended",
            ScriptCause::WrongCount => "count",
            ScriptCause::BadNumber => "number",
            ScriptCause::BadHex => "hex",
            ScriptCause::TooMany => "wait",
        }
    }
}

impl fmt::Display for ScriptCause {
    fn fmt<W: fmt::Write>(&self, f: &mut fmt::Formatter<W>) -> fmt::Result {
        f.write_str(self.word())
    }
}
