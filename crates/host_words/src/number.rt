//! What single words say.
ghost use Rattle.std.specs.Prelude.{◌≡◌};
ghost use Rattle.host_words.specs.Numbers.{number, block_size};

use host_block::BlockSize;

/// The number that a word writes in decimal digits, with a value from `low` to `high`.
#[tactic(auto, unfolding(crate::specs::Numbers::number))]
pub fn number(word: &str, low: u32, high: u32) -> Option<u32>
    ensures { result ≡ number low high word.now }
{
    let digits = word.as_bytes();
    if digits.is_empty() {
        return None;
    }
    let mut value = 0;
    for digit in digits {
        if !digit.is_ascii_digit() {
            return None;
        }
        value = value * 10 + u64::from(*digit - b'0');
        if value > u64::from(high) {
            return None;
        }
    }
    if value < u64::from(low) {
        return None;
    }
    Some(value as u32)
}

/// The size of a block.
#[tactic(auto, unfolding(crate::specs::Numbers::block_size))]
pub fn block_size(word: &str) -> Option<BlockSize>
    ensures { result ≡ block_size word.now }
{
    BlockSize::new(number(word, 512, 4096)?)
}
