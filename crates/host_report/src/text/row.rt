// The lines of the records that were taken.
ghost use Rattle.std.specs.Prelude.{flat_map};
ghost use Rattle.std.specs.List.{enumerate_from};
ghost use Rattle.host_report.specs.StepText.{row_line};
ghost use Rattle.host_text.specs.Writing.{PutsHeldText};

use host_io::{Sink, SinkFailed};
use host_model::{TakenRow, Verdict};
use host_text::{Held, Word, put_line};

/// Puts a line for each record that was taken.
pub fn write_rows<K: Sink>(
    rows: &[TakenRow],
    held: &mut Held,
    out: &mut K,
) -> Result<(), SinkFailed>
    ensures { PutsHeldText K.tells K.faults K.appended out.old held.old out.new held.new
        (flat_map row_line (enumerate_from 0 rows.now)) result }
{
    for (index, row) in rows.iter().enumerate() {
        write_row(index as u64, *row, held, out)?;
    }
    Ok(())
}

fn write_row<K: Sink>(
    index: u64,
    row: TakenRow,
    held: &mut Held,
    out: &mut K,
) -> Result<(), SinkFailed>
    ensures { PutsHeldText K.tells K.faults K.appended out.old held.old out.new held.new
        (row_line (index, row)) result }
{
    match row.verdict {
        Verdict::Accepted => {
            let words = [
                Word::Text(b"taken"),
                Word::Number(index),
                Word::Text(b"accepted"),
                Word::Signed(row.outcome.number()),
            ];
            put_line(b"  ", &words, held, out)
        }
        Verdict::Refused(status) => {
            let words = [
                Word::Text(b"taken"),
                Word::Number(index),
                Word::Text(b"refused"),
                Word::Signed(status.number()),
            ];
            put_line(b"  ", &words, held, out)
        }
    }
}
