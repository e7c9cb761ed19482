// Words and lines, put into a sink.
ghost use Rattle.std.specs.Prelude.{◌≡◌, ◌<◌, ◌==◌, ◌++◌, false, flat_map, slice_index};
ghost use Rattle.std.specs.Fmt.{digit_glyph};
ghost use Rattle.std.specs.List.{list_all};
ghost use Rattle.host_text.specs.Printed.{printed, all_printed, after_space, spaced};
ghost use Rattle.host_text.specs.Words.{hex_byte, hex, block_word, line};
ghost use Rattle.host_text.specs.Writing.{PutsHeldText};

use crate::held::Held;
use crate::word::Word;
use host_io::{Sink, SinkFailed};
use itoa::{Buffer, Integer};

/// Puts a line of words with a space between them, after an indent.
pub fn put_line<K: Sink>(
    indent: &[u8],
    words: &[Word<'_>],
    held: &mut Held,
    out: &mut K,
) -> Result<(), SinkFailed>
    ensures { PutsHeldText K.tells K.faults K.appended out.old held.old out.new held.new
        (indent.now ++ line (all_printed words.now)) result }
{
    held.put(indent, out)?;
    put_words(words, held, out)?;
    held.put(b"\n", out)
}

// Puts words with a space between them.
fn put_words<K: Sink>(words: &[Word<'_>], held: &mut Held, out: &mut K) -> Result<(), SinkFailed>
    ensures { PutsHeldText K.tells K.faults K.appended out.old held.old out.new held.new
        (spaced words.now) result }
{
    match words.split_first() {
        Some((first, rest)) => {
            put_word(first, held, out)?;
            put_rest(rest, held, out)
        }
        None => Ok(()),
    }
}

// Puts words with a space before each.
fn put_rest<K: Sink>(words: &[Word<'_>], held: &mut Held, out: &mut K) -> Result<(), SinkFailed>
    ensures { PutsHeldText K.tells K.faults K.appended out.old held.old out.new held.new
        (flat_map after_space words.now) result }
{
    for word in words {
        put_next(word, held, out)?;
    }
    Ok(())
}

// Puts a word with a space before it.
fn put_next<K: Sink>(word: &Word<'_>, held: &mut Held, out: &mut K) -> Result<(), SinkFailed>
    ensures { PutsHeldText K.tells K.faults K.appended out.old held.old out.new held.new
        (after_space word.now) result }
{
    held.put(b" ", out)?;
    put_word(word, held, out)
}

fn put_word<K: Sink>(word: &Word<'_>, held: &mut Held, out: &mut K) -> Result<(), SinkFailed>
    ensures { PutsHeldText K.tells K.faults K.appended out.old held.old out.new held.new
        (printed word.now) result }
{
    match *word {
        Word::Text(text) => held.put(text, out),
        Word::Number(n) => put_number(n, held, out),
        Word::Total(n) => put_number(n, held, out),
        Word::Signed(n) => put_number(n, held, out),
        Word::Byte(byte) => put_byte(byte, held, out),
        Word::Hex(bytes) => put_hex(bytes, held, out),
        Word::Block(bytes) => put_block(bytes, held, out),
        Word::Stored(bytes) => put_block(bytes.as_slice(), held, out),
    }
}

fn put_number<K: Sink, N: Integer>(n: N, held: &mut Held, out: &mut K) -> Result<(), SinkFailed>
    ensures { PutsHeldText K.tells K.faults K.appended out.old held.old out.new held.new (N.text n)
        result }
{
    let mut buffer = Buffer::new();
    held.put(buffer.format(n).as_bytes(), out)
}

fn put_block<K: Sink>(bytes: &[u8], held: &mut Held, out: &mut K) -> Result<(), SinkFailed>
    ensures { PutsHeldText K.tells K.faults K.appended out.old held.old out.new held.new
        (block_word bytes.now) result }
{
    let first = first_byte(bytes);
    if are_all(bytes, first) {
        held.put(b"all ", out)?;
        put_byte(first, held, out)
    } else {
        put_hex(bytes, held, out)
    }
}

// The first byte; 0 where there is none.
fn first_byte(bytes: &[u8]) -> u8
    ensures { result ≡ slice_index bytes.now 0 }
{
    match bytes.first() {
        Some(byte) => *byte,
        None => 0,
    }
}

// Whether all of these are this byte. To look at each is faster than to stop at the first other
// one.
fn are_all(bytes: &[u8], byte: u8) -> bool
    ensures { result ≡ list_all (λ b. b == byte) bytes.now }
{
    let mut same = true;
    for b in bytes {
        same &= *b == byte;
    }
    same
}

fn put_hex<K: Sink>(bytes: &[u8], held: &mut Held, out: &mut K) -> Result<(), SinkFailed>
    ensures { PutsHeldText K.tells K.faults K.appended out.old held.old out.new held.new
        (hex bytes.now) result }
{
    for byte in bytes {
        put_byte(*byte, held, out)?;
    }
    Ok(())
}

fn put_byte<K: Sink>(byte: u8, held: &mut Held, out: &mut K) -> Result<(), SinkFailed>
    ensures { PutsHeldText K.tells K.faults K.appended out.old held.old out.new held.new
        (hex_byte byte) result }
{
    held.put(&[digit(byte / 16), digit(byte % 16)], out)
}

// A digit in lower case.
fn digit(value: u8) -> u8
    requires { value < 16 }
    ensures { result ≡ digit_glyph false value }
{
    if value < 10 {
        b'0' + value
    } else {
        b'a' + (value - 10)
    }
}
