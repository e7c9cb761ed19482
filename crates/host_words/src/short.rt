//! Words that begin with one hyphen, which no command has.
ghost use Rattle.std.specs.Prelude.{◌≡◌, map};
ghost use Rattle.host_words.specs.Given.{has_short, is_short};

/// Whether such a word stands before the first `--`. `clap` is asked of no other words, since its
/// definition speaks of the characters of such a word, and the words of a list aren't known to be
/// UTF-8 in contracts.
#[tactic(auto, unfolding(crate::specs::Given::has_short))]
pub fn has_short(words: &[&str]) -> bool
    ensures { result ≡ has_short (map (λ w. w.now) words.now) }
{
    for word in words {
        if *word == "--" {
            return false;
        }
        if is_short(word) {
            return true;
        }
    }
    false
}

fn is_short(word: &str) -> bool
    ensures { result ≡ is_short word.now }
{
    match word.as_bytes() {
        [first, second, ..] => *first == b'-' && *second != b'-',
        _ => false,
    }
}
