//! Scripts that are read, printed and made.

use host_block::BlockSize;
use host_io::MemSink;
use host_script::{ParseError, Script, ScriptCause, generate, parse, print_script};
use std::alloc::Global;
use std::test::Fail;

// Texts that are no scripts, each with its first bad line and the first cause in it.
const BAD: [(&str, u64, ScriptCause); 34] = [
    ("wait\x01", 1, ScriptCause::BadByte),
    ("session 1\n\rattach 1\n", 2, ScriptCause::BadByte),
    ("session 1\r\r\n", 1, ScriptCause::BadByte),
    ("session 1\r", 1, ScriptCause::BadByte),
    ("\r", 1, ScriptCause::BadByte),
    ("wiat", 1, ScriptCause::UnknownWord),
    ("Wait", 1, ScriptCause::UnknownWord),
    ("attach 1", 1, ScriptCause::NoSession),
    ("session 1\nabort\nwait", 3, ScriptCause::AfterEnd),
    ("session 1\ndrain\n\ndrain", 4, ScriptCause::AfterEnd),
    ("session", 1, ScriptCause::WrongCount),
    ("session 1 v2", 1, ScriptCause::WrongCount),
    ("session 1\nflush 1 members 1", 2, ScriptCause::WrongCount),
    (
        "session 1\nwrite 1 1 0 0 1 hard",
        2,
        ScriptCause::WrongCount,
    ),
    ("session 1\nwait 1 member 1", 2, ScriptCause::WrongCount),
    ("session 0", 1, ScriptCause::BadNumber),
    ("session 1025", 1, ScriptCause::BadNumber),
    ("session 000000000000000000001", 1, ScriptCause::BadNumber),
    ("session 1\nattach 4097", 2, ScriptCause::BadNumber),
    ("session 1\nfill 65536 0 1 00", 2, ScriptCause::BadNumber),
    ("session 1\nflush 4294967296", 2, ScriptCause::BadNumber),
    (
        "session 1\nread 1 1 18446744073709551616 0 1",
        2,
        ScriptCause::BadNumber,
    ),
    ("session 1\nflush 1 last 8", 2, ScriptCause::BadNumber),
    ("session 1\nwait 0", 2, ScriptCause::BadNumber),
    ("session 1\nfill 1 0 1 0", 2, ScriptCause::BadHex),
    ("session 1\nraw 0304", 2, ScriptCause::BadHex),
    ("session 1\nflush 1\nwait 2", 3, ScriptCause::TooMany),
    // Two causes hold of one line.
    ("\x7f", 1, ScriptCause::BadByte),
    ("wiat 1", 1, ScriptCause::UnknownWord),
    ("attach", 1, ScriptCause::NoSession),
    ("session 1\ndrain\nattach", 3, ScriptCause::AfterEnd),
    ("session 1\nfill x y z", 2, ScriptCause::WrongCount),
    ("session 1\nfill 1 0 0 zz", 2, ScriptCause::BadNumber),
    ("session 1\nwait 1 #\nwiat", 2, ScriptCause::TooMany),
];

#[test]
fn first_bad_lines_are_named(rt: HostRuntime) {
    for (text, line, cause) in BAD {
        let error = parse(rt.alloc(), text.as_bytes()).err();
        assert!(rt; error == Some(ParseError::Bad { line, cause }), "{text}");
    }
}

// What is wrong with the line `w`, the byte and another `w`.
fn inside(byte: u8) -> ScriptCause {
    match byte {
        b' ' | b'\t' | b'\n' | 0x21..=0x7e => ScriptCause::UnknownWord,
        _ => ScriptCause::BadByte,
    }
}

#[test]
fn every_byte_is_judged(rt: HostRuntime) {
    let alloc = rt.alloc();
    for byte in 0..=255u8 {
        assert!(rt; parse(alloc, &[b'#', byte, b'\r', b'\n']).is_ok(), "{byte}");
        let bad = |cause| Some(ParseError::Bad { line: 1, cause });
        let middle = parse(alloc, &[b'w', byte, b'w', b'\n']).err();
        assert!(rt; middle == bad(inside(byte)), "{byte}");
        let end = parse(alloc, &[b'w', byte, b'\n']).err();
        let at_end = if byte == b'\r' { b' ' } else { byte };
        assert!(rt; end == bad(inside(at_end)), "{byte}");
        let start = parse(alloc, &[byte, b'\n']).err();
        match byte {
            b' ' | b'\t' | b'\n' | b'\r' | b'#' => assert!(rt; start.is_none(), "{byte}"),
            _ => assert!(rt; start == bad(inside(byte)), "{byte}"),
        }
    }
}

fn printed(alloc: Global, script: &Script) -> Result<Vec<u8>, Fail> {
    let mut sink = MemSink::new(alloc, 65_536, Vec::new(alloc))?;
    if print_script(script, &mut sink).is_err() {
        return Err(Fail::from("sink"));
    }
    Ok(sink.bytes().to_vec(alloc)?)
}

// Every kind of line, as it may be written and as it is printed.
const WRITTEN: &str = "session 01 # the first\r
\tattach 8
fill 1 0 4 A1

show 1 0 4096
read 10 1 0 0 1
write 10 1 00000000000000000002 18446744073709551615 1 last 3
flush 20
trim 21 4294967295 7 member 0
close 22 65535
raw 030c000014000000080000000000000000000000000000000000000000000000
raw 0300000014000000000000000000000000000000000000000000000000000000
raw ff00000000000000000000000000000000000000000000000000000000000000
wait
wait 3
session 1024
abort
session 2
drain";

const PRINTED: &str = "session 1
attach 8
fill 1 0 4 a1
show 1 0 4096
read 10 1 0 0 1
write 10 1 2 18446744073709551615 1 last 3
flush 20
trim 21 4294967295 7 member 0
close 22 65535
raw 030c000014000000080000000000000000000000000000000000000000000000
flush 20
raw ff00000000000000000000000000000000000000000000000000000000000000
wait
wait 3
drain
session 1024
abort
session 2
drain
";

// A session with comments, and without.
const COMMENTED: &str = "
session 1                      # on partition 1
attach 8                       # a buffer of 8 pages, which gets id 1
fill 1 0 4 a1                  # pages 0 to 3 of it get the byte a1
write 10 1 0 0 1 member 3      # four writes of one block each, in group 3
write 11 1 1 1 1 member 3
write 12 1 2 2 1 member 3
write 13 1 3 3 1 last 3
wait                           # until every answer that is owed was received
flush 20
wait
read 30 1 4 0 4                # 4 blocks from block 0 into pages 4 to 7
wait
show 1 4 4                     # puts these pages into the log
drain
";

const PLAIN: &str = "session 1
attach 8
fill 1 0 4 a1
write 10 1 0 0 1 member 3
write 11 1 1 1 1 member 3
write 12 1 2 2 1 member 3
write 13 1 3 3 1 last 3
wait
flush 20
wait
read 30 1 4 0 4
wait
show 1 4 4
drain
";

const MADE: &str = "session 1
attach 8
fill 1 0 8 01
trim 0 11 3
read 1 1 0 11 4
wait
show 1 0 8
drain
";

#[test]
fn scripts_are_printed(rt: HostRuntime) -> Result<(), Fail> {
    let alloc = rt.alloc();
    for (written, plain) in [(WRITTEN, PRINTED), (COMMENTED, PLAIN)] {
        let script = parse(alloc, written.as_bytes()).ok().ok_or("script")?;
        let text = printed(alloc, &script)?;
        assert!(rt; text.as_slice() == plain.as_bytes());
        let again = parse(alloc, &text).ok().ok_or("again")?;
        assert!(rt; printed(alloc, &again)? == text);
    }
    let made = generate(alloc, 1, 1, 2)?;
    assert!(rt; printed(alloc, &made)?.as_slice() == MADE.as_bytes());
    let size = BlockSize::new(512).ok_or("size")?;
    assert!(rt; made.limit(size).is_none());
    Ok(())
}

#[test]
fn many_empty_lines_are_no_session(rt: HostRuntime) -> Result<(), Fail> {
    let alloc = rt.alloc();
    let text = vec![in alloc; b'\n'; 1_048_576]?;
    let script = parse(alloc, &text).ok().ok_or("script")?;
    assert!(rt; script.sessions.is_empty());
    Ok(())
}
