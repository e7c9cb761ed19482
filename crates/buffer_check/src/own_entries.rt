//! Whether a record has the entries that it has to have.
ghost use Rattle.std.specs.Prelude.{◌≡◌, ◌↔◌, ◌++◌, [], ◌∷◌, IsTrue, not, map, filter, filter_map};
ghost use Rattle.std.specs.Prelude.{take, Some};
ghost use Rattle.host_record.specs.Command.{opcode};
ghost use Rattle.host_model.specs.Carrying.{same_op};
ghost use Rattle.host_model.specs.RecordEntries.{entries_for, entries_owed, land_for, lift_at};
ghost use Rattle.host_model.specs.RecordEntries.{lift_for, spare, writes_of};

use crate::events::are_equal;
use host_block::Op;
use host_model::{MemEvent, SharedBytes, Step, TakenRow, Verdict};
use host_record::{Opcode, Request, Status};

fn is_none(own: &[MemEvent]) -> bool
    ensures { IsTrue result ↔ (own.now ≡ []) }
{
    match own {
        [] => true,
        [_, ..] => false,
    }
}

fn is_pin(event: &MemEvent, i: usize, v: u16) -> bool
    ensures { IsTrue result ↔ (event.now ≡ MemEvent.Pin i v 0) }
{
    match event {
        MemEvent::Pin { index, id, by } => *index as usize == i && *id == v && *by == 0,
        _ => false,
    }
}

fn is_done(event: &MemEvent, i: usize, v: u16) -> bool
    ensures { IsTrue result ↔ (event.now ≡ MemEvent.Done i v) }
{
    match event {
        MemEvent::Done { index, id } => *index as usize == i && *id == v,
        _ => false,
    }
}

fn is_close(event: &MemEvent, i: usize, v: u16) -> bool
    ensures { IsTrue result ↔ (event.now ≡ MemEvent.Close i v) }
{
    match event {
        MemEvent::Close { index, id } => *index as usize == i && *id == v,
        _ => false,
    }
}

fn is_lift(event: &MemEvent, i: usize, r: &Request, n: u32, from: &SharedBytes) -> bool
    ensures { IsTrue result ↔ (event.now ≡ lift_for i r.now n from.now) }
{
    let place = r.vmo_offset as u128 + n as u128;
    match event {
        MemEvent::Lift {
            index,
            k,
            id,
            block,
            bytes,
        } => {
            *index as usize == i
                && *k == n
                && *id == r.vmoid
                && *block as u128 == place
                && are_equal(bytes, from)
        }
        _ => false,
    }
}

fn is_landing(event: &MemEvent, i: usize, r: &Request, n: u32, from: &SharedBytes) -> bool
    ensures { IsTrue result ↔ (event.now ≡ land_for i r.now n from.now) }
{
    let place = r.vmo_offset as u128 + n as u128;
    match event {
        MemEvent::Land {
            index,
            k,
            id,
            block,
            bytes,
        } => {
            *index as usize == i
                && *k == n
                && *id == r.vmoid
                && *block as u128 == place
                && are_equal(bytes, from)
        }
        _ => false,
    }
}

// Whether nothing but the record's end is left.
fn ends(own: &[MemEvent], i: usize, v: u16) -> bool
    ensures { IsTrue result ↔ (own.now ≡ MemEvent.Done i v ∷ []) }
{
    match own {
        [] => false,
        [event, rest @ ..] => is_done(event, i, v) && is_none(rest),
    }
}

// Whether a lift at place n and the record's end are left.
fn lifts_and_ends(own: &[MemEvent], i: usize, r: &Request, n: u32, bytes: &SharedBytes) -> bool
    ensures { IsTrue result
        ↔ (own.now ≡ lift_for i r.now n bytes.now ∷ MemEvent.Done i r.now.vmoid ∷ []) }
{
    match own {
        [] => false,
        [event, rest @ ..] => is_lift(event, i, r, n, bytes) && ends(rest, i, r.vmoid),
    }
}

// Whether what is left is the first of these lifts at place n, if there is one, and the record's
// end.
fn spares_and_ends(own: &[MemEvent], lifts: &[MemEvent], i: usize, r: &Request, n: usize) -> bool
    ensures { IsTrue result
        ↔ (own.now
        ≡ take 1 (filter_map (lift_at n i r.now) lifts.now) ++ MemEvent.Done i r.now.vmoid ∷ []) }
{
    match lifts {
        [] => ends(own, i, r.vmoid),
        [event, rest @ ..] => match event {
            MemEvent::Lift { k, bytes, .. } => {
                if *k as usize == n {
                    lifts_and_ends(own, i, r, *k, bytes)
                } else {
                    spares_and_ends(own, rest, i, r, n)
                }
            }
            _ => spares_and_ends(own, rest, i, r, n),
        },
    }
}

// The same where memory was refused before the step on block n; else the record's end alone.
fn write_ends(
    own: &[MemEvent],
    whole: &[MemEvent],
    status: Status,
    i: usize,
    r: &Request,
    n: usize,
) -> bool
    ensures { IsTrue result
        ↔ (own.now ≡ spare status n i r.now whole.now ++ MemEvent.Done i r.now.vmoid ∷ []) }
{
    match status {
        Status::NoMemory if n < r.length as usize => spares_and_ends(own, whole, i, r, n),
        Status::NoMemory => ends(own, i, r.vmoid),
        Status::Ok => ends(own, i, r.vmoid),
        Status::NotSupported => ends(own, i, r.vmoid),
        Status::InvalidArgs => ends(own, i, r.vmoid),
        Status::OutOfRange => ends(own, i, r.vmoid),
        Status::TooSmall => ends(own, i, r.vmoid),
        Status::NotFound => ends(own, i, r.vmoid),
        Status::Io => ends(own, i, r.vmoid),
    }
}

fn writes(step: &Step) -> bool
    ensures { result ≡ same_op step.now.op Op.Write }
{
    step.op == Op::Write
}

// Whether what is left is a lift for each of these steps that writes, and then the end of a write.
fn write_goes_on(
    own: &[MemEvent],
    whole: &[MemEvent],
    status: Status,
    i: usize,
    r: &Request,
    n: usize,
    steps: &[Step],
) -> bool
    ensures { IsTrue result
        ↔ (own.now
        ≡ map (λ step. lift_for i r.now step.k step.bytes) (writes_of steps.now)
        ++ spare status n i r.now whole.now ++ MemEvent.Done i r.now.vmoid ∷ []) }
{
    match steps {
        [] => write_ends(own, whole, status, i, r, n),
        [step, steps @ ..] => {
            if !writes(step) {
                return write_goes_on(own, whole, status, i, r, n, steps);
            }
            match own {
                [] => false,
                [event, own @ ..] => {
                    is_lift(event, i, r, step.k, &step.bytes)
                        && write_goes_on(own, whole, status, i, r, n, steps)
                }
            }
        }
    }
}

// Whether what is left is a landing for each of these steps that isn't faulted, and then the end.
fn read_goes_on(own: &[MemEvent], i: usize, r: &Request, steps: &[Step]) -> bool
    ensures { IsTrue result
        ↔ (own.now
        ≡ map (λ step. land_for i r.now step.k step.bytes)
        (filter (λ step. not step.faulted) steps.now) ++ MemEvent.Done i r.now.vmoid ∷ []) }
{
    match steps {
        [] => ends(own, i, r.vmoid),
        [step, steps @ ..] => {
            if step.faulted {
                return read_goes_on(own, i, r, steps);
            }
            match own {
                [] => false,
                [event, own @ ..] => {
                    is_landing(event, i, r, step.k, &step.bytes) && read_goes_on(own, i, r, steps)
                }
            }
        }
    }
}

fn write_is_whole(own: &[MemEvent], status: Status, i: usize, r: &Request, steps: &[Step]) -> bool
    ensures { IsTrue result
        ↔ (own.now ≡ entries_for (Some Opcode.Write) status i r.now steps.now own.now) }
{
    match own {
        [] => false,
        [event, rest @ ..] => {
            is_pin(event, i, r.vmoid) && write_goes_on(rest, own, status, i, r, steps.len(), steps)
        }
    }
}

fn read_is_whole(own: &[MemEvent], status: Status, i: usize, r: &Request, steps: &[Step]) -> bool
    ensures { IsTrue result
        ↔ (own.now ≡ entries_for (Some Opcode.Read) status i r.now steps.now own.now) }
{
    match own {
        [] => false,
        [event, rest @ ..] => is_pin(event, i, r.vmoid) && read_goes_on(rest, i, r, steps),
    }
}

fn close_is_whole(own: &[MemEvent], i: usize, v: u16) -> bool
    ensures { IsTrue result ↔ (own.now ≡ MemEvent.Close i v ∷ []) }
{
    match own {
        [] => false,
        [event, rest @ ..] => is_close(event, i, v) && is_none(rest),
    }
}

fn accepted_is_whole(
    own: &[MemEvent],
    status: Status,
    i: usize,
    r: &Request,
    steps: &[Step],
) -> bool
    ensures { IsTrue result
        ↔ (own.now ≡ entries_for (opcode r.now) status i r.now steps.now own.now) }
{
    match r.opcode() {
        Some(Opcode::Write) => write_is_whole(own, status, i, r, steps),
        Some(Opcode::Read) => read_is_whole(own, status, i, r, steps),
        Some(Opcode::Close) => close_is_whole(own, i, r.vmoid),
        Some(Opcode::Flush) => is_none(own),
        Some(Opcode::Trim) => is_none(own),
        None => is_none(own),
    }
}

/// Whether these are the entries that record i has to have, by its row and its steps.
pub fn is_whole(own: &[MemEvent], row: TakenRow, i: usize, r: &Request, steps: &[Step]) -> bool
    ensures { IsTrue result
        ↔ (own.now ≡ entries_owed row.verdict row.outcome i r.now steps.now own.now) }
{
    match row.verdict {
        Verdict::Accepted => accepted_is_whole(own, row.outcome, i, r, steps),
        Verdict::Refused(_) => is_none(own),
    }
}
