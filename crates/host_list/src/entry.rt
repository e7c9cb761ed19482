// The lines of the entries.
ghost use Rattle.std.specs.Prelude.{◌≡◌, Contains, flat_map};
ghost use Rattle.host_gpt.specs.Entries.{AreUsed};
ghost use Rattle.host_list.specs.Text.{attributes_text, entry_line, entry_words, mark};
ghost use Rattle.host_text.specs.Printed.{printed};
ghost use Rattle.host_text.specs.Words.{hex, line};
ghost use Rattle.host_text.specs.Writing.{PutsHeldText};

use crate::guid::guid_text;
use crate::name::NameText;
use crate::served::is_served;
use host_gpt::Entry;
use host_io::{Sink, SinkFailed};
use host_part::Parts;
use host_text::{Held, Word, put_line};
use uuid::Uuid;

/// Puts a line for each entry of a table.
pub fn write_entries<K: Sink>(
    entries: &[Entry],
    parts: &Parts,
    held: &mut Held,
    out: &mut K,
) -> Result<(), SinkFailed>
    requires all { parts.now.entries ≡ entries.now }
    requires used { AreUsed parts.now.entries }
    ensures { PutsHeldText K.tells K.faults K.appended out.old held.old out.new held.new
        (flat_map (entry_line parts.now) entries.now) result }
{
    for entry in entries {
        write_entry(entry, parts, held, out)?;
    }
    Ok(())
}

fn write_entry<K: Sink>(
    entry: &Entry,
    parts: &Parts,
    held: &mut Held,
    out: &mut K,
) -> Result<(), SinkFailed>
    requires listed { Contains parts.now.entries entry.now }
    requires used { AreUsed parts.now.entries }
    ensures { PutsHeldText K.tells K.faults K.appended out.old held.old out.new held.new
        (entry_line parts.now entry.now) result }
{
    let served = is_served(parts, entry);
    write_marked(served, entry, held, out)
}

fn write_marked<K: Sink>(
    served: bool,
    entry: &Entry,
    held: &mut Held,
    out: &mut K,
) -> Result<(), SinkFailed>
    ensures { PutsHeldText K.tells K.faults K.appended out.old held.old out.new held.new
        (line (entry_words served entry.now)) result }
{
    let mut type_buffer = Uuid::encode_buffer();
    let mut id_buffer = Uuid::encode_buffer();
    let attributes = attribute_bytes(entry.attributes);
    let name = NameText::of(&entry.name);
    let words = [
        mark(served),
        Word::Number(entry.number as u64),
        Word::Text(b"first"),
        Word::Number(entry.first),
        Word::Text(b"last"),
        Word::Number(entry.last),
        Word::Text(b"type"),
        Word::Text(guid_text(&entry.type_id, &mut type_buffer)),
        Word::Text(b"id"),
        Word::Text(guid_text(&entry.id, &mut id_buffer)),
        Word::Text(b"attributes"),
        Word::Hex(&attributes),
        Word::Text(b"name"),
        Word::Text(name.as_slice()),
    ];
    put_line(b"", &words, held, out)
}

fn mark<'a>(served: bool) -> Word<'a>
    ensures { printed result ≡ mark served }
{
    if served {
        Word::Text(b"part")
    } else {
        Word::Text(b"bad")
    }
}

// The bytes of the attributes, whose digits are the number's.
#[tactic(auto, unfolding(crate::specs::Text::attributes_text))]
fn attribute_bytes(attributes: u64) -> [u8; 8]
    ensures { hex result ≡ attributes_text attributes }
{
    attributes.to_be_bytes()
}
