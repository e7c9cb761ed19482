// The line of a record.
ghost use Rattle.std.specs.Prelude.{◌≡◌, [], ◌∷◌, codes, decimal, MatchOption, if◌then◌else◌};
ghost use Rattle.host_text.specs.Printed.{printed};
ghost use Rattle.host_text.specs.Words.{line};
ghost use Rattle.host_text.specs.Writing.{PutsHeldText};
ghost use Rattle.script_model.specs.Print.{group_words, is_named as is_named_by, named_words};
ghost use Rattle.script_model.specs.Print.{raw_words, send_words};

use crate::named::{high_bits, is_named};
use host_io::{Sink, SinkFailed};
use host_record::{Opcode, Request};
use host_text::{Held, Word, put_line};

/// Puts the line that sends a record: the one that names what it asks for where that line gives the
/// same bytes, else the bytes.
pub fn write_record<K: Sink>(
    bytes: &[u8; 32],
    held: &mut Held,
    out: &mut K,
) -> Result<(), SinkFailed>
    ensures { PutsHeldText K.tells K.faults K.appended out.old held.old out.new held.new
        (line (send_words bytes.now)) result }
{
    let request = Request::from_bytes(bytes);
    match request.opcode() {
        Some(opcode) => write_named_or_raw(opcode, &request, bytes, held, out),
        None => write_raw(bytes, held, out),
    }
}

fn write_named_or_raw<K: Sink>(
    opcode: Opcode,
    request: &Request,
    bytes: &[u8; 32],
    held: &mut Held,
    out: &mut K,
) -> Result<(), SinkFailed>
    ensures { PutsHeldText K.tells K.faults K.appended out.old held.old out.new held.new
        (line (if is_named_by opcode bytes.now then named_words opcode request.now
        else raw_words bytes.now)) result }
{
    if is_named(opcode, bytes) {
        write_named(opcode, request, held, out)
    } else {
        write_raw(bytes, held, out)
    }
}

fn write_raw<K: Sink>(bytes: &[u8; 32], held: &mut Held, out: &mut K) -> Result<(), SinkFailed>
    ensures { PutsHeldText K.tells K.faults K.appended out.old held.old out.new held.new
        (line (raw_words bytes.now)) result }
{
    put_line(b"", &[Word::Text(b"raw"), Word::Hex(bytes)], held, out)
}

fn write_named<K: Sink>(
    opcode: Opcode,
    request: &Request,
    held: &mut Held,
    out: &mut K,
) -> Result<(), SinkFailed>
    ensures { PutsHeldText K.tells K.faults K.appended out.old held.old out.new held.new
        (line (named_words opcode request.now)) result }
{
    match opcode {
        Opcode::Read => write_transfer(b"read", request, held, out),
        Opcode::Write if request.is_forced() => write_forced(request, held, out),
        Opcode::Write => write_transfer(b"write", request, held, out),
        Opcode::Flush => write_flush(request, held, out),
        Opcode::Trim => write_trim(request, held, out),
        Opcode::Close => write_close(request, held, out),
    }
}

// The word before the group's number, where the line has one.
fn group_word<'a>(request: &Request) -> Option<Word<'a>>
    ensures { MatchOption result (group_words request.now ≡ [])
        (λ word. group_words request.now ≡ printed word ∷ decimal request.now.group ∷ []) }
{
    match high_bits(request) {
        0x800 => Some(Word::Text(b"member")),
        0xc00 => Some(Word::Text(b"last")),
        _ => None,
    }
}

fn write_transfer<'a, K: Sink>(
    name: &'a [u8],
    request: &Request,
    held: &mut Held,
    out: &mut K,
) -> Result<(), SinkFailed>
    ensures { let r = request.now in
        PutsHeldText K.tells K.faults K.appended out.old held.old out.new held.new
        (line (name.now ∷ decimal r.reqid ∷ decimal r.vmoid ∷ decimal r.vmo_offset
        ∷ decimal r.dev_offset ∷ decimal r.length ∷ group_words r)) result }
{
    let words = [
        Word::Text(name),
        Word::Number(request.reqid as u64),
        Word::Number(request.vmoid as u64),
        Word::Number(request.vmo_offset),
        Word::Number(request.dev_offset),
        Word::Number(request.length as u64),
    ];
    match group_word(request) {
        Some(word) => {
            let [name, reqid, id, buffer, block, length] = words;
            let group = Word::Number(request.group as u64);
            put_line(
                b"",
                &[name, reqid, id, buffer, block, length, word, group],
                held,
                out,
            )
        }
        None => put_line(b"", &words, held, out),
    }
}

// A write with the word that forces it.
fn write_forced<K: Sink>(request: &Request, held: &mut Held, out: &mut K) -> Result<(), SinkFailed>
    ensures { let r = request.now in
        PutsHeldText K.tells K.faults K.appended out.old held.old out.new held.new
        (line (codes "write" ∷ decimal r.reqid ∷ decimal r.vmoid ∷ decimal r.vmo_offset
        ∷ decimal r.dev_offset ∷ decimal r.length ∷ codes "force" ∷ group_words r)) result }
{
    let words = [
        Word::Text(b"write"),
        Word::Number(request.reqid as u64),
        Word::Number(request.vmoid as u64),
        Word::Number(request.vmo_offset),
        Word::Number(request.dev_offset),
        Word::Number(request.length as u64),
        Word::Text(b"force"),
    ];
    match group_word(request) {
        Some(word) => {
            let [name, reqid, id, buffer, block, length, force] = words;
            let group = Word::Number(request.group as u64);
            put_line(
                b"",
                &[name, reqid, id, buffer, block, length, force, word, group],
                held,
                out,
            )
        }
        None => put_line(b"", &words, held, out),
    }
}

fn write_flush<K: Sink>(request: &Request, held: &mut Held, out: &mut K) -> Result<(), SinkFailed>
    ensures { PutsHeldText K.tells K.faults K.appended out.old held.old out.new held.new
        (line (codes "flush" ∷ decimal request.now.reqid ∷ group_words request.now)) result }
{
    let flush = Word::Text(b"flush");
    let reqid = Word::Number(request.reqid as u64);
    match group_word(request) {
        Some(word) => {
            let group = Word::Number(request.group as u64);
            put_line(b"", &[flush, reqid, word, group], held, out)
        }
        None => put_line(b"", &[flush, reqid], held, out),
    }
}

fn write_trim<K: Sink>(request: &Request, held: &mut Held, out: &mut K) -> Result<(), SinkFailed>
    ensures { let r = request.now in
        PutsHeldText K.tells K.faults K.appended out.old held.old out.new held.new
        (line (codes "trim" ∷ decimal r.reqid ∷ decimal r.dev_offset ∷ decimal r.length
        ∷ group_words r)) result }
{
    let trim = Word::Text(b"trim");
    let reqid = Word::Number(request.reqid as u64);
    let block = Word::Number(request.dev_offset);
    let length = Word::Number(request.length as u64);
    match group_word(request) {
        Some(word) => {
            let group = Word::Number(request.group as u64);
            put_line(b"", &[trim, reqid, block, length, word, group], held, out)
        }
        None => put_line(b"", &[trim, reqid, block, length], held, out),
    }
}

fn write_close<K: Sink>(request: &Request, held: &mut Held, out: &mut K) -> Result<(), SinkFailed>
    ensures { PutsHeldText K.tells K.faults K.appended out.old held.old out.new held.new
        (line (codes "close" ∷ decimal request.now.reqid ∷ decimal request.now.vmoid
        ∷ group_words request.now)) result }
{
    let close = Word::Text(b"close");
    let reqid = Word::Number(request.reqid as u64);
    let id = Word::Number(request.vmoid as u64);
    match group_word(request) {
        Some(word) => {
            let group = Word::Number(request.group as u64);
            put_line(b"", &[close, reqid, id, word, group], held, out)
        }
        None => put_line(b"", &[close, reqid, id], held, out),
    }
}
