// The numbers and bytes that single words stand for.
ghost use Rattle.std.specs.Prelude.{◌≡◌, ◌≤◌, IfOk, Ok, Err};
ghost use Rattle.script_model.specs.Numbers.{is_digit, decimal_value, number, hex_bytes};

use hex::decode_to_slice;
use script_model::ScriptCause;

fn is_digit(byte: u8) -> bool
    ensures { result ≡ is_digit byte }
{
    byte.is_ascii_digit()
}

/// The value of 1 to 20 decimal digits.
#[tactic(auto, unfolding(script_model::specs::Numbers::decimal_value))]
fn decimal_value(word: &[u8]) -> Option<u128>
    ensures { result ≡ decimal_value word.now }
{
    if word.is_empty() || word.len() > 20 {
        return None;
    }
    let mut value = 0;
    for digit in word {
        if !is_digit(*digit) {
            return None;
        }
        value = value * 10 + u128::from(*digit - b'0');
    }
    Some(value)
}

/// A decimal number in a range.
#[tactic(auto, unfolding(script_model::specs::Numbers::number))]
pub fn number(word: &[u8], low: u64, high: u64) -> Result<u64, ScriptCause>
    ensures value { result ≡ number low high word.now }
    ensures range { IfOk result (λ n. (low ≤ n) × (n ≤ high)) }
{
    match decimal_value(word) {
        Some(value) if u128::from(low) <= value && value <= u128::from(high) => Ok(value as u64),
        _ => Err(ScriptCause::BadNumber),
    }
}

/// One byte as two hexadecimal digits.
#[tactic(auto, unfolding(script_model::specs::Numbers::hex_bytes))]
pub fn byte(word: &[u8]) -> Result<[u8; 1], ScriptCause>
    ensures { result ≡ hex_bytes 1 word.now }
{
    let mut bytes = [0; 1];
    match decode_to_slice(word, &mut bytes) {
        Ok(()) => Ok(bytes),
        Err(_) => Err(ScriptCause::BadHex),
    }
}

/// The bytes of a record, two hexadecimal digits each.
#[tactic(auto, unfolding(script_model::specs::Numbers::hex_bytes))]
pub fn record_bytes(word: &[u8]) -> Result<[u8; 32], ScriptCause>
    ensures { result ≡ hex_bytes 32 word.now }
{
    let mut bytes = [0; 32];
    match decode_to_slice(word, &mut bytes) {
        Ok(()) => Ok(bytes),
        Err(_) => Err(ScriptCause::BadHex),
    }
}
