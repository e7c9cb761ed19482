//! Lines in an output.

use crate::script::{add_lines, numbered};
use std::alloc::{AllocError, Global};

/// Whether the output is these lines.
pub fn is_text(alloc: Global, text: &[u8], lines: &[&str]) -> Result<bool, AllocError> {
    let mut whole = Vec::new(alloc);
    add_lines(&mut whole, lines)?;
    Ok(whole.as_slice() == text)
}

/// How often these lines stand in the output, one after the other.
pub fn count_of(alloc: Global, text: &[u8], lines: &[&str]) -> Result<u64, AllocError> {
    let mut part = Vec::new(alloc);
    add_lines(&mut part, lines)?;
    Ok(places_of(text, &part))
}

/// Whether these lines stand in it exactly once with each number below this.
pub fn has_each(
    alloc: Global,
    text: &[u8],
    lines: &[&str],
    count: u64,
) -> Result<bool, AllocError> {
    for number in 0..count {
        if places_of(text, &numbered(alloc, lines, number)?) != 1 {
            return Ok(false);
        }
    }
    Ok(true)
}

// At how many beginnings of lines this part stands.
fn places_of(text: &[u8], part: &[u8]) -> u64 {
    let mut places = 0u64;
    let mut is_begin = true;
    for start in 0..text.len() {
        if is_begin && text[start..].starts_with(part) {
            places = places.saturating_add(1);
        }
        is_begin = text[start] == b'\n';
    }
    places
}

/// How many lines it has.
pub fn line_count(text: &[u8]) -> u64 {
    text.iter().filter(|byte| **byte == b'\n').count() as u64
}
