// The text of `list`.
ghost use Rattle.std.specs.Prelude.{◌≡◌};
ghost use Rattle.host_gpt.specs.Entries.{AreUsed};
ghost use Rattle.host_io.specs.Causes.{HasCause};
ghost use Rattle.host_list.specs.Text.{disk_line, list_head_text, list_text};
ghost use Rattle.host_part.specs.Served.{layout_of};
ghost use Rattle.host_report.specs.Text.{image_line, table_line, which_word};
ghost use Rattle.host_text.specs.Printed.{printed};
ghost use Rattle.host_text.specs.Writing.{PutsHeldText, Writes};

use crate::entry::write_entries;
use crate::guid::guid_text;
use host_block::BlockSize;
use host_gpt::{Table, Which};
use host_io::{Sink, SinkFailed};
use host_part::Parts;
use host_text::{Held, Word, put_line};
use uuid::Uuid;

/// Puts the text of `list` of a table on an image of so many blocks of this size. `parts` is what
/// the table serves there.
pub fn write_list<K: Sink>(
    blocks: u64,
    size: BlockSize,
    table: &Table,
    parts: &Parts,
    out: &mut K,
) -> Result<(), SinkFailed>
    requires parts { parts.now ≡ layout_of table.now blocks }
    requires used { AreUsed table.now.entries.items }
    ensures tells { K.tells out.new ≡ K.tells out.old }
    ensures text { Writes (K.tells out.old) (K.appended out.old) (K.appended out.new)
        (list_text blocks size table.now) result }
    ensures cause { HasCause (K.faults out.old) (K.faults out.new) result }
{
    let mut held = Held::new();
    write_text(blocks, size, table, parts, &mut held, out)?;
    held.send(out)
}

fn write_text<K: Sink>(
    blocks: u64,
    size: BlockSize,
    table: &Table,
    parts: &Parts,
    held: &mut Held,
    out: &mut K,
) -> Result<(), SinkFailed>
    requires parts { parts.now ≡ layout_of table.now blocks }
    requires used { AreUsed table.now.entries.items }
    ensures { PutsHeldText K.tells K.faults K.appended out.old held.old out.new held.new
        (list_text blocks size table.now) result }
{
    write_head(blocks, size, table, held, out)?;
    write_entries(table.entries.as_slice(), parts, held, out)?;
    put_line(b"", &[Word::Text(b"end")], held, out)
}

fn write_head<K: Sink>(
    blocks: u64,
    size: BlockSize,
    table: &Table,
    held: &mut Held,
    out: &mut K,
) -> Result<(), SinkFailed>
    ensures { PutsHeldText K.tells K.faults K.appended out.old held.old out.new held.new
        (list_head_text blocks size table.now) result }
{
    write_image(blocks, size, held, out)?;
    write_which(table.which, held, out)?;
    write_disk(&table.disk_id, held, out)
}

fn write_image<K: Sink>(
    blocks: u64,
    size: BlockSize,
    held: &mut Held,
    out: &mut K,
) -> Result<(), SinkFailed>
    ensures { PutsHeldText K.tells K.faults K.appended out.old held.old out.new held.new
        (image_line blocks size) result }
{
    let words = [
        Word::Text(b"image"),
        Word::Number(blocks),
        Word::Text(b"of"),
        Word::Number(size.bytes() as u64),
    ];
    put_line(b"", &words, held, out)
}

fn write_which<K: Sink>(which: Which, held: &mut Held, out: &mut K) -> Result<(), SinkFailed>
    ensures { PutsHeldText K.tells K.faults K.appended out.old held.old out.new held.new
        (table_line which) result }
{
    put_line(b"", &[Word::Text(b"table"), word_of(which)], held, out)
}

fn word_of<'a>(which: Which) -> Word<'a>
    ensures { printed result ≡ which_word which }
{
    match which {
        Which::Primary => Word::Text(b"primary"),
        Which::Backup => Word::Text(b"backup"),
    }
}

fn write_disk<K: Sink>(id: &[u8; 16], held: &mut Held, out: &mut K) -> Result<(), SinkFailed>
    ensures { PutsHeldText K.tells K.faults K.appended out.old held.old out.new held.new
        (disk_line id.now) result }
{
    let mut buffer = Uuid::encode_buffer();
    let words = [Word::Text(b"disk"), Word::Text(guid_text(id, &mut buffer))];
    put_line(b"", &words, held, out)
}
