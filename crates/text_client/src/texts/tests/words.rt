//! A line with words of each kind.

use host_block::Bytes;
use host_io::{MemSink, SinkFailed};
use host_text::{Held, Word, put_line};
use std::test::Fail;

// Puts a line with a word of each kind, and one with none.
fn put_words(sink: &mut MemSink, stored: &Bytes) -> Result<(), SinkFailed> {
    let words = [
        Word::Text(b"word"),
        Word::Number(18446744073709551615),
        Word::Total(340282366920938463463374607431768211455),
        Word::Signed(-14),
        Word::Byte(0x0a),
        Word::Hex(b"\x00\xff"),
        Word::Block(b"\xc1\xc1\xc1"),
        Word::Stored(stored),
    ];
    let mut held = Held::new();
    put_line(b"  ", &words, &mut held, sink)?;
    put_line(b"", &[], &mut held, sink)?;
    held.send(sink)
}

#[test]
fn each_word_is_printed(rt: HostRuntime) -> Result<(), Fail> {
    let alloc = rt.alloc();
    let mut sink = MemSink::new(alloc, 200, Vec::new(alloc))?;
    let stored = Bytes::copied(alloc, &[1, 255])?;
    assert!(rt; put_words(&mut sink, &stored).is_ok());
    let text = "  word 18446744073709551615 340282366920938463463374607431768211455 -14 \
        0a 00ff all c1 01ff\n\n";
    assert!(rt; sink.bytes() == text.as_bytes());
    Ok(())
}
