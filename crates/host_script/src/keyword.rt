ghost use Rattle.std.specs.Prelude.{◌≡◌};
ghost use Rattle.std.specs.Str.{bytes_eq};
ghost use Rattle.script_model.specs.Keyword.{keyword_of};

use script_model::{Keyword, ScriptCause};

/// Whether the word is this text.
pub fn is_text(word: &[u8], text: &str) -> bool
    ensures { result ≡ bytes_eq word.now text.now }
{
    word == text.as_bytes()
}

/// The keyword that the word is.
#[tactic(auto, unfolding(script_model::specs::Keyword::keyword_of))]
pub fn keyword_of(word: &[u8]) -> Result<Keyword, ScriptCause>
    ensures { result ≡ keyword_of word.now }
{
    if is_text(word, "session") {
        Ok(Keyword::Session)
    } else if is_text(word, "attach") {
        Ok(Keyword::Attach)
    } else if is_text(word, "fill") {
        Ok(Keyword::Fill)
    } else if is_text(word, "show") {
        Ok(Keyword::Show)
    } else if is_text(word, "read") {
        Ok(Keyword::Read)
    } else if is_text(word, "write") {
        Ok(Keyword::Write)
    } else if is_text(word, "flush") {
        Ok(Keyword::Flush)
    } else if is_text(word, "trim") {
        Ok(Keyword::Trim)
    } else if is_text(word, "close") {
        Ok(Keyword::Close)
    } else if is_text(word, "raw") {
        Ok(Keyword::Raw)
    } else if is_text(word, "wait") {
        Ok(Keyword::Wait)
    } else if is_text(word, "drain") {
        Ok(Keyword::Drain)
    } else if is_text(word, "abort") {
        Ok(Keyword::Abort)
    } else {
        Err(ScriptCause::UnknownWord)
    }
}
