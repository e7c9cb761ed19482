// The lines of a client's log.
ghost use Rattle.std.specs.Prelude.{◌≡◌, [], ◌∷◌, codes, decimal};
ghost use Rattle.host_record.specs.Response.{response_fields};
ghost use Rattle.host_report.specs.LogText.{answer_line, block_of, attach_cause_word, event_line};
ghost use Rattle.host_report.specs.LogText.{event_text, shown_lines, shown_text};
ghost use Rattle.host_text.specs.Printed.{printed};
ghost use Rattle.host_report.specs.Words.{inner, yes_or_no};
ghost use Rattle.host_text.specs.Writing.{PutsHeldText};

use byteorder::{ByteOrder, LittleEndian};
use host_block::{BlockSize, Bytes};
use host_io::{Sink, SinkFailed};
use host_model::{AttachError, Event};
use host_record::Response;
use host_text::{Held, Word, put_line};

/// Puts the lines of an event of a log; blocks have this size.
pub fn write_event<K: Sink>(
    event: &Event,
    size: BlockSize,
    held: &mut Held,
    out: &mut K,
) -> Result<(), SinkFailed>
    ensures { PutsHeldText K.tells K.faults K.appended out.old held.old out.new held.new
        (event_text size event.now) result }
{
    write_event_line(event, held, out)?;
    match event {
        Event::Shown {
            id,
            block,
            count,
            done,
            bytes,
        } => write_shown(*id, *block, *count, *done, bytes, size, held, out),
        Event::Attached { .. }
        | Event::NotAttached { .. }
        | Event::Filled { .. }
        | Event::Sent { .. }
        | Event::Received { .. }
        | Event::Drained
        | Event::Aborted => Ok(()),
    }
}

fn write_event_line<K: Sink>(event: &Event, held: &mut Held, out: &mut K) -> Result<(), SinkFailed>
    ensures { PutsHeldText K.tells K.faults K.appended out.old held.old out.new held.new
        (event_line event.now) result }
{
    match event {
        Event::Attached { pages, id } => write_attached(*pages, *id, held, out),
        Event::NotAttached { pages, cause } => write_not_attached(*pages, *cause, held, out),
        Event::Filled {
            id,
            block,
            count,
            byte,
            done,
        } => write_filled(*id, *block, *count, *byte, *done, held, out),
        Event::Sent { index, bytes } => write_sent(*index, bytes, held, out),
        Event::Received { bytes } => write_answer(answer_in(bytes), held, out),
        Event::Shown {
            id,
            block,
            count,
            done,
            ..
        } => write_show(*id, *block, *count, *done, held, out),
        Event::Drained => put_line(b"  ", &[Word::Text(b"drained")], held, out),
        Event::Aborted => put_line(b"  ", &[Word::Text(b"aborted")], held, out),
    }
}

fn write_attached<K: Sink>(
    pages: u32,
    id: u16,
    held: &mut Held,
    out: &mut K,
) -> Result<(), SinkFailed>
    ensures { PutsHeldText K.tells K.faults K.appended out.old held.old out.new held.new
        (event_line (Event.Attached pages id)) result }
{
    let words = [
        Word::Text(b"attach"),
        Word::Number(pages as u64),
        Word::Text(b"id"),
        Word::Number(id as u64),
    ];
    put_line(b"  ", &words, held, out)
}

fn write_not_attached<K: Sink>(
    pages: u32,
    cause: AttachError,
    held: &mut Held,
    out: &mut K,
) -> Result<(), SinkFailed>
    ensures { PutsHeldText K.tells K.faults K.appended out.old held.old out.new held.new
        (event_line (Event.NotAttached pages cause)) result }
{
    let words = [
        Word::Text(b"attach"),
        Word::Number(pages as u64),
        word_of_cause(cause),
    ];
    put_line(b"  ", &words, held, out)
}

fn word_of_cause<'a>(cause: AttachError) -> Word<'a>
    ensures { printed result ≡ attach_cause_word cause }
{
    match cause {
        AttachError::NoFrames => Word::Text(b"no-frames"),
        AttachError::NoIds => Word::Text(b"no-ids"),
        AttachError::Closed => Word::Text(b"closed"),
        AttachError::Oom => Word::Text(b"no-memory"),
    }
}

fn yes_or_no_word<'a>(yes: bool) -> Word<'a>
    ensures { printed result ≡ yes_or_no yes }
{
    if yes {
        Word::Text(b"yes")
    } else {
        Word::Text(b"no")
    }
}

fn write_filled<K: Sink>(
    id: u16,
    block: u32,
    count: u32,
    byte: u8,
    done: bool,
    held: &mut Held,
    out: &mut K,
) -> Result<(), SinkFailed>
    ensures { PutsHeldText K.tells K.faults K.appended out.old held.old out.new held.new
        (event_line (Event.Filled id block count byte done)) result }
{
    let words = [
        Word::Text(b"fill"),
        Word::Number(id as u64),
        Word::Number(block as u64),
        Word::Number(count as u64),
        Word::Byte(byte),
        yes_or_no_word(done),
    ];
    put_line(b"  ", &words, held, out)
}

fn write_sent<K: Sink>(
    index: u32,
    bytes: &[u8; 32],
    held: &mut Held,
    out: &mut K,
) -> Result<(), SinkFailed>
    ensures { PutsHeldText K.tells K.faults K.appended out.old held.old out.new held.new
        (event_line (Event.Sent index bytes.now)) result }
{
    let words = [
        Word::Text(b"send"),
        Word::Number(index as u64),
        Word::Hex(bytes),
    ];
    put_line(b"  ", &words, held, out)
}

// The fields that these bytes have in an answer.
#[tactic(auto, unfolding(host_record::specs::Response::response_fields))]
fn answer_in(bytes: &[u8; 32]) -> Response
    ensures { result ≡ response_fields bytes.now }
{
    Response {
        status: LittleEndian::read_i32(bytes),
        reqid: LittleEndian::read_u32(&bytes[4..]),
        group: LittleEndian::read_u16(&bytes[8..]),
        count: LittleEndian::read_u32(&bytes[12..]),
    }
}

fn write_answer<K: Sink>(answer: Response, held: &mut Held, out: &mut K) -> Result<(), SinkFailed>
    ensures { PutsHeldText K.tells K.faults K.appended out.old held.old out.new held.new
        (answer_line answer) result }
{
    let words = [
        Word::Text(b"answer"),
        Word::Signed(answer.status),
        Word::Text(b"reqid"),
        Word::Number(answer.reqid as u64),
        Word::Text(b"group"),
        Word::Number(answer.group as u64),
        Word::Text(b"count"),
        Word::Number(answer.count as u64),
    ];
    put_line(b"  ", &words, held, out)
}

// Puts the line that stands above the blocks that were shown.
fn write_show<K: Sink>(
    id: u16,
    block: u32,
    count: u32,
    done: bool,
    held: &mut Held,
    out: &mut K,
) -> Result<(), SinkFailed>
    ensures { PutsHeldText K.tells K.faults K.appended out.old held.old out.new held.new
        (inner (codes "show" ∷ decimal id ∷ decimal block ∷ decimal count ∷ yes_or_no done ∷ []))
        result }
{
    let words = [
        Word::Text(b"show"),
        Word::Number(id as u64),
        Word::Number(block as u64),
        Word::Number(count as u64),
        yes_or_no_word(done),
    ];
    put_line(b"  ", &words, held, out)
}

// Puts the lines of the blocks that were shown, if they were.
fn write_shown<K: Sink>(
    id: u16,
    block: u32,
    count: u32,
    done: bool,
    bytes: &Bytes,
    size: BlockSize,
    held: &mut Held,
    out: &mut K,
) -> Result<(), SinkFailed>
    ensures { PutsHeldText K.tells K.faults K.appended out.old held.old out.new held.new
        (shown_lines size (Event.Shown id block count done bytes.now)) result }
{
    if done {
        write_blocks(block, count, bytes.as_slice(), size, held, out)
    } else {
        Ok(())
    }
}

// Puts a line for each of so many blocks of these bytes; the first has this number.
fn write_blocks<K: Sink>(
    block: u32,
    count: u32,
    bytes: &[u8],
    size: BlockSize,
    held: &mut Held,
    out: &mut K,
) -> Result<(), SinkFailed>
    ensures { PutsHeldText K.tells K.faults K.appended out.old held.old out.new held.new
        (shown_text size block count bytes.now) result }
{
    for k in 0..count {
        let words = [
            Word::Number(block as u64 + k as u64),
            Word::Block(nth_block(bytes, size, k)),
        ];
        put_line(b"    ", &words, held, out)?;
    }
    Ok(())
}

// Block `k` of these bytes, or what there is of it.
fn nth_block(bytes: &[u8], size: BlockSize, k: u32) -> &[u8]
    ensures { result.now ≡ block_of size bytes.now k }
{
    let width = size.bytes() as usize;
    let start = (k as usize * width).min(bytes.len());
    let rest = &bytes[start..];
    &rest[..width.min(rest.len())]
}
