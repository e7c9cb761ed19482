//! How records are carried out.
ghost use Rattle.std.specs.Prelude.{◌≡◌, ◌+◌, ◌≤◌, [], ◌∷◌, length, IsTrue, ◌↔◌, Some};
ghost use Rattle.host_record.specs.Command.{opcode};
ghost use Rattle.host_model.specs.Carrying.{asked, asked_by, is_step_for, carries_out, flush_ask};
ghost use Rattle.host_model.specs.Carrying.{for_each_block, outcome_of, same_op};
ghost use Rattle.record_check.specs.Carried.{IsRecordCarried};
ghost use Rattle.record_check.specs.Asks.{asks_on, ended_after, flush_of};
ghost use Rattle.host_model.specs.Lists.{is_nil};

use host_block::{Op, Range};
use host_model::{Step, TakenRow, Verdict};
use host_record::{Opcode, Request, Status};

fn is_op(a: Op, b: Op) -> bool
    ensures { result ≡ same_op a b }
{
    a == b
}

// Whether the step is the one that the request asks for at place k.
fn is_asked(kind: Op, part: &Range, r: &Request, k: u32, step: &Step) -> bool
    ensures { result
        ≡ is_step_for (record { k = k; op = kind; block = part.now.first + r.now.dev_offset + k })
        step.now }
{
    let block = part.first as u128 + r.dev_offset as u128 + k as u128;
    step.k == k && is_op(step.op, kind) && step.block as u128 == block
}

fn are_none(steps: &[Step]) -> bool
    ensures { result ≡ is_nil steps.now }
{
    match steps {
        [] => true,
        [_, ..] => false,
    }
}

// Whether no step is there where none is asked for.
#[tactic(auto, using(crate::proofs::CarryLemmas::none_asked))]
fn none_is_made(steps: &[Step]) -> bool
    ensures { result ≡ carries_out [] steps.now }
{
    are_none(steps)
}

// Whether the steps are the first of a flush with number k alone.
fn flush_is_made(k: u32, steps: &[Step]) -> bool
    ensures { result ≡ carries_out (flush_ask k ∷ []) steps.now }
{
    match steps {
        [] => true,
        [step, rest @ ..] => {
            step.k == k && is_op(step.op, Op::Flush) && step.block == 0 && are_none(rest)
        }
    }
}

// The same where the flush comes after so many blocks, and only where it is asked for.
fn end_is_made(forced: bool, k: u32, steps: &[Step]) -> bool
    ensures { result ≡ carries_out (flush_of forced k) steps.now }
{
    if forced {
        return flush_is_made(k, steps);
    }
    none_is_made(steps)
}

// Whether the steps are the first of those that the request asks for from block k on.
fn blocks_go_on(kind: Op, part: &Range, r: &Request, forced: bool, k: u32, steps: &[Step]) -> bool
    requires { k ≤ r.now.length }
    ensures { result ≡ carries_out (asks_on kind part.now r.now forced k) steps.now }
{
    if k == r.length {
        return end_is_made(forced, k, steps);
    }
    match steps {
        [] => true,
        [step, rest @ ..] => {
            if !is_asked(kind, part, r, k, step) {
                return false;
            }
            if step.faulted {
                return are_none(rest);
            }
            blocks_go_on(kind, part, r, forced, k + 1, rest)
        }
    }
}

// Whether they are the first of all that it asks for.
#[tactic(auto, using(crate::proofs::CarryLemmas::unforced))]
fn blocks_are_made(kind: Op, part: &Range, r: &Request, steps: &[Step]) -> bool
    ensures { result ≡ carries_out (for_each_block kind part.now r.now) steps.now }
{
    blocks_go_on(kind, part, r, false, 0, steps)
}

fn write_is_made(part: &Range, r: &Request, steps: &[Step]) -> bool
    ensures { result ≡ carries_out (asked_by (Some Opcode.Write) part.now r.now) steps.now }
{
    blocks_go_on(Op::Write, part, r, r.is_forced(), 0, steps)
}

fn accepted_is_made(part: &Range, r: &Request, steps: &[Step]) -> bool
    ensures { result ≡ carries_out (asked_by (opcode r.now) part.now r.now) steps.now }
{
    match r.opcode() {
        Some(Opcode::Read) => blocks_are_made(Op::Read, part, r, steps),
        Some(Opcode::Write) => write_is_made(part, r, steps),
        Some(Opcode::Trim) => blocks_are_made(Op::Trim, part, r, steps),
        Some(Opcode::Flush) => flush_is_made(0, steps),
        Some(Opcode::Close) => none_is_made(steps),
        None => none_is_made(steps),
    }
}

// Whether the steps of a record with this verdict are the first of those that it asks for, and only
// the last is faulted.
fn is_made(verdict: Verdict, part: &Range, r: &Request, steps: &[Step]) -> bool
    ensures { result ≡ carries_out (asked verdict part.now r.now) steps.now }
{
    match verdict {
        Verdict::Accepted => accepted_is_made(part, r, steps),
        Verdict::Refused(_) => none_is_made(steps),
    }
}

// How many steps a record with this verdict asks for. A length is below `2 ^ 32`, and a forced
// write has one more.
#[tactic(auto, using(crate::proofs::CarryLemmas::length_asked, crate::proofs::CarryLemmas::length_written))]
fn asked_count(verdict: Verdict, part: &Range, r: &Request) -> u64
    ensures { result ≡ length (asked verdict part.now r.now) }
{
    if matches!(verdict, Verdict::Refused(_)) {
        return 0;
    }
    match r.opcode() {
        Some(Opcode::Read) => r.length as u64,
        Some(Opcode::Write) => r.length as u64 + r.is_forced() as u64,
        Some(Opcode::Trim) => r.length as u64,
        Some(Opcode::Flush) => 1,
        Some(Opcode::Close) => 0,
        None => 0,
    }
}

// How a record that asks for so many steps ended.
fn ending(asked: u64, steps: &[Step]) -> Status
    ensures { result ≡ ended_after asked steps.now }
{
    match steps {
        [] => {
            if asked == 0 {
                Status::Ok
            } else {
                Status::NoMemory
            }
        }
        [step, rest @ ..] => {
            if step.faulted {
                Status::Io
            } else {
                ending(asked.saturating_sub(1), rest)
            }
        }
    }
}

// The outcome of a record with this verdict.
#[tactic(auto, using(crate::proofs::CarryLemmas::ended_is))]
fn outcome(verdict: Verdict, part: &Range, r: &Request, steps: &[Step]) -> Status
    ensures { result ≡ outcome_of verdict (asked verdict part.now r.now) steps.now }
{
    match verdict {
        Verdict::Accepted => ending(asked_count(verdict, part, r), steps),
        Verdict::Refused(status) => status,
    }
}

fn is_same(a: Status, b: Status) -> bool
    ensures { IsTrue result ↔ (a ≡ b) }
{
    a == b
}

/// Whether a record with this row is carried out by these steps.
pub fn is_carried_out(row: &TakenRow, part: &Range, r: &Request, steps: &[Step]) -> bool
    ensures { IsTrue result ↔ IsRecordCarried part.now r.now row.now steps.now }
{
    is_made(row.verdict, part, r, steps)
        && is_same(row.outcome, outcome(row.verdict, part, r, steps))
}
