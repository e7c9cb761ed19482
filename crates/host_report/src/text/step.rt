// The lines of a device's steps.
ghost use Rattle.std.specs.Prelude.{◌≡◌, [], ◌∷◌, ◌++◌, flat_map};
ghost use Rattle.host_text.specs.Printed.{printed};
ghost use Rattle.host_report.specs.StepText.{ok_or_fault, op_word, printed_block, step_line};
ghost use Rattle.host_report.specs.StepText.{step_words};
ghost use Rattle.host_report.specs.Words.{inner};
ghost use Rattle.host_text.specs.Words.{block_word};
ghost use Rattle.host_text.specs.Writing.{PutsHeldText};

use host_block::Op;
use host_io::{Sink, SinkFailed};
use host_model::Step;
use host_text::{Held, Word, put_line};

/// Puts a line for each step of a device.
pub fn write_steps<K: Sink>(steps: &[Step], held: &mut Held, out: &mut K) -> Result<(), SinkFailed>
    ensures { PutsHeldText K.tells K.faults K.appended out.old held.old out.new held.new
        (flat_map step_line steps.now) result }
{
    for step in steps {
        write_step(step, held, out)?;
    }
    Ok(())
}

fn write_step<K: Sink>(step: &Step, held: &mut Held, out: &mut K) -> Result<(), SinkFailed>
    ensures { PutsHeldText K.tells K.faults K.appended out.old held.old out.new held.new
        (step_line step.now) result }
{
    match step.op {
        Op::Read if step.faulted => write_bare(step, held, out),
        Op::Read | Op::Write => write_with_bytes(step, held, out),
        Op::Trim | Op::Flush => write_bare(step, held, out),
    }
}

fn write_bare<K: Sink>(step: &Step, held: &mut Held, out: &mut K) -> Result<(), SinkFailed>
    ensures { PutsHeldText K.tells K.faults K.appended out.old held.old out.new held.new
        (inner (step_words step.now)) result }
{
    let words = [
        Word::Text(b"step"),
        Word::Number(step.session as u64),
        Word::Number(step.index as u64),
        Word::Number(step.k as u64),
        word_of_op(step.op),
        Word::Number(shown_block(step.op, step.block)),
        word_of_fault(step.faulted),
    ];
    put_line(b"  ", &words, held, out)
}

fn write_with_bytes<K: Sink>(step: &Step, held: &mut Held, out: &mut K) -> Result<(), SinkFailed>
    ensures { PutsHeldText K.tells K.faults K.appended out.old held.old out.new held.new
        (inner (step_words step.now ++ block_word step.now.bytes ∷ [])) result }
{
    let words = [
        Word::Text(b"step"),
        Word::Number(step.session as u64),
        Word::Number(step.index as u64),
        Word::Number(step.k as u64),
        word_of_op(step.op),
        Word::Number(shown_block(step.op, step.block)),
        word_of_fault(step.faulted),
        Word::Block(step.bytes.as_slice()),
    ];
    put_line(b"  ", &words, held, out)
}

fn word_of_op<'a>(op: Op) -> Word<'a>
    ensures { printed result ≡ op_word op }
{
    match op {
        Op::Read => Word::Text(b"read"),
        Op::Write => Word::Text(b"write"),
        Op::Trim => Word::Text(b"trim"),
        Op::Flush => Word::Text(b"flush"),
    }
}

// The block that is printed: a flush is on none, and has 0.
fn shown_block(op: Op, block: u64) -> u64
    ensures { result ≡ printed_block op block }
{
    match op {
        Op::Read | Op::Write | Op::Trim => block,
        Op::Flush => 0,
    }
}

fn word_of_fault<'a>(faulted: bool) -> Word<'a>
    ensures { printed result ≡ ok_or_fault faulted }
{
    if faulted {
        Word::Text(b"fault")
    } else {
        Word::Text(b"ok")
    }
}
