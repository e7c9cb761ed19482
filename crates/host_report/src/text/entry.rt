// The lines of what was done to a session's buffers.
ghost use Rattle.std.specs.Prelude.{[], ◌∷◌, flat_map, codes, decimal};
ghost use Rattle.host_report.specs.StepText.{memory_entry_line, memory_entry_words};
ghost use Rattle.host_report.specs.Words.{inner};
ghost use Rattle.host_text.specs.Words.{block_word};
ghost use Rattle.host_text.specs.Writing.{PutsHeldText};

use host_io::{Sink, SinkFailed};
use host_model::{MemEntry, MemEvent, SharedBytes};
use host_text::{Held, Word, put_line};

/// Puts a line for each entry of a history of buffers.
pub fn write_entries<K: Sink>(
    entries: &[MemEntry],
    held: &mut Held,
    out: &mut K,
) -> Result<(), SinkFailed>
    ensures { PutsHeldText K.tells K.faults K.appended out.old held.old out.new held.new
        (flat_map memory_entry_line entries.now) result }
{
    for entry in entries {
        write_entry(entry, held, out)?;
    }
    Ok(())
}

fn write_entry<K: Sink>(entry: &MemEntry, held: &mut Held, out: &mut K) -> Result<(), SinkFailed>
    ensures { PutsHeldText K.tells K.faults K.appended out.old held.old out.new held.new
        (memory_entry_line entry.now) result }
{
    match &entry.what {
        MemEvent::Attach { id, pages, from } => write_attach(*id, *pages, *from, held, out),
        MemEvent::Fill {
            id,
            block,
            count,
            byte,
        } => write_fill(*id, *block, *count, *byte, held, out),
        MemEvent::Show { id, block, count } => write_show(*id, *block, *count, held, out),
        MemEvent::Pin { index, id, .. } => write_of_record(b"pin", *index, *id, held, out),
        MemEvent::Lift {
            index,
            k,
            id,
            block,
            bytes,
        } => { write_moved(b"lift", *index, *k, *id, *block, bytes, held, out) }
        MemEvent::Land {
            index,
            k,
            id,
            block,
            bytes,
        } => { write_moved(b"land", *index, *k, *id, *block, bytes, held, out) }
        MemEvent::Done { index, id } => write_of_record(b"done", *index, *id, held, out),
        MemEvent::Close { index, id } => write_of_record(b"close", *index, *id, held, out),
        MemEvent::Release { id } => write_release(*id, held, out),
    }
}

fn write_attach<K: Sink>(
    id: u16,
    pages: u32,
    from: u32,
    held: &mut Held,
    out: &mut K,
) -> Result<(), SinkFailed>
    ensures { PutsHeldText K.tells K.faults K.appended out.old held.old out.new held.new
        (inner (codes "memory" ∷ memory_entry_words (MemEvent.Attach id pages from))) result }
{
    let words = [
        Word::Text(b"memory"),
        Word::Text(b"attach"),
        Word::Number(id as u64),
        Word::Number(pages as u64),
        Word::Number(from as u64),
    ];
    put_line(b"  ", &words, held, out)
}

fn write_fill<K: Sink>(
    id: u16,
    block: u32,
    count: u32,
    byte: u8,
    held: &mut Held,
    out: &mut K,
) -> Result<(), SinkFailed>
    ensures { PutsHeldText K.tells K.faults K.appended out.old held.old out.new held.new
        (inner (codes "memory" ∷ memory_entry_words (MemEvent.Fill id block count byte))) result }
{
    let words = [
        Word::Text(b"memory"),
        Word::Text(b"fill"),
        Word::Number(id as u64),
        Word::Number(block as u64),
        Word::Number(count as u64),
        Word::Byte(byte),
    ];
    put_line(b"  ", &words, held, out)
}

fn write_show<K: Sink>(
    id: u16,
    block: u32,
    count: u32,
    held: &mut Held,
    out: &mut K,
) -> Result<(), SinkFailed>
    ensures { PutsHeldText K.tells K.faults K.appended out.old held.old out.new held.new
        (inner (codes "memory" ∷ memory_entry_words (MemEvent.Show id block count))) result }
{
    let words = [
        Word::Text(b"memory"),
        Word::Text(b"show"),
        Word::Number(id as u64),
        Word::Number(block as u64),
        Word::Number(count as u64),
    ];
    put_line(b"  ", &words, held, out)
}

fn write_release<K: Sink>(id: u16, held: &mut Held, out: &mut K) -> Result<(), SinkFailed>
    ensures { PutsHeldText K.tells K.faults K.appended out.old held.old out.new held.new
        (inner (codes "memory" ∷ memory_entry_words (MemEvent.Release id))) result }
{
    let words = [
        Word::Text(b"memory"),
        Word::Text(b"release"),
        Word::Number(id as u64),
    ];
    put_line(b"  ", &words, held, out)
}

// Puts the line of a record's pin, of its end, or of the close of its buffer.
fn write_of_record<'x, K: Sink>(
    name: &'x [u8],
    index: u32,
    id: u16,
    held: &mut Held,
    out: &mut K,
) -> Result<(), SinkFailed>
    ensures { PutsHeldText K.tells K.faults K.appended out.old held.old out.new held.new
        (inner (codes "memory" ∷ name.now ∷ decimal index ∷ decimal id ∷ [])) result }
{
    let words = [
        Word::Text(b"memory"),
        Word::Text(name),
        Word::Number(index as u64),
        Word::Number(id as u64),
    ];
    put_line(b"  ", &words, held, out)
}

// Puts the line of a page that was copied out or in.
fn write_moved<'x, K: Sink>(
    name: &'x [u8],
    index: u32,
    k: u32,
    id: u16,
    block: u32,
    bytes: &'x SharedBytes,
    held: &mut Held,
    out: &mut K,
) -> Result<(), SinkFailed>
    ensures { PutsHeldText K.tells K.faults K.appended out.old held.old out.new held.new
        (inner (codes "memory" ∷ name.now ∷ decimal index ∷ decimal k ∷ decimal id ∷ decimal block
        ∷ block_word bytes.now ∷ [])) result }
{
    let words = [
        Word::Text(b"memory"),
        Word::Text(name),
        Word::Number(index as u64),
        Word::Number(k as u64),
        Word::Number(id as u64),
        Word::Number(block as u64),
        Word::Block(bytes.as_slice()),
    ];
    put_line(b"  ", &words, held, out)
}
