//! The client's entries beside its log.
ghost use Rattle.std.specs.Prelude.{◌≡◌, ◌↔◌, ◌+◌, ◌<◌, ◌^◌, IsTrue, Some, filter, length};
ghost use Rattle.host_model.specs.declared.memory.MemEvent.TheVariants.{Attach, Fill, Show};
ghost use Rattle.host_model.specs.ClientEntries.{told};
ghost use Rattle.buffer_check.specs.Told.{entry_at, has_entry, sends_in, told_from};

use host_model::{Event, MemEvent};

fn sends(event: &Event) -> usize
    ensures { result ≡ sends_in event.now }
{
    match event {
        Event::Sent { .. } => 1,
        _ => 0,
    }
}

// Whether the event has an entry.
fn tells(event: &Event) -> bool
    ensures { result ≡ has_entry event.now }
{
    match event {
        Event::Attached { .. } => true,
        Event::Filled { done, .. } => *done,
        Event::Shown { done, .. } => *done,
        _ => false,
    }
}

fn telling_count(log: &[Event]) -> usize
    ensures { result ≡ length (filter has_entry log.now) }
{
    log.iter().filter(|event| tells(event)).count()
}

/// How many of these events have an entry.
#[tactic(auto, using(crate::proofs::ToldLemmas::length_told))]
pub fn told_count(log: &[Event]) -> usize
    ensures { result ≡ length (told log.now) }
{
    telling_count(log)
}

fn is_attach(entry: &MemEvent, id: u16, pages: u32, from: usize) -> bool
    ensures { IsTrue result ↔ (entry.now ≡ Attach id pages from) }
{
    match entry {
        MemEvent::Attach {
            id: i,
            pages: p,
            from: f,
        } => *i == id && *p == pages && *f as usize == from,
        _ => false,
    }
}

fn is_fill(entry: &MemEvent, id: u16, block: u32, count: u32, byte: u8) -> bool
    ensures { IsTrue result ↔ (entry.now ≡ Fill id block count byte) }
{
    match entry {
        MemEvent::Fill {
            id: i,
            block: b,
            count: n,
            byte: y,
        } => *i == id && *b == block && *n == count && *y == byte,
        _ => false,
    }
}

fn is_show(entry: &MemEvent, id: u16, block: u32, count: u32) -> bool
    ensures { IsTrue result ↔ (entry.now ≡ Show id block count) }
{
    match entry {
        MemEvent::Show {
            id: i,
            block: b,
            count: n,
        } => *i == id && *b == block && *n == count,
        _ => false,
    }
}

// Whether the entry is that of the event, where n records were sent before.
fn is_entry_of(entry: &MemEvent, event: &Event, n: usize) -> bool
    ensures { IsTrue result ↔ (entry_at n event.now ≡ Some entry.now) }
{
    match event {
        Event::Attached { pages, id } => is_attach(entry, *id, *pages, n),
        Event::Filled {
            id,
            block,
            count,
            byte,
            done,
        } => {
            if *done {
                is_fill(entry, *id, *block, *count, *byte)
            } else {
                false
            }
        }
        Event::Shown {
            id,
            block,
            count,
            done,
            ..
        } => {
            if *done {
                is_show(entry, *id, *block, *count)
            } else {
                false
            }
        }
        _ => false,
    }
}

// Whether the entries are those of the events, where n records were sent before.
fn are_told_from(entries: &[MemEvent], log: &[Event], n: usize) -> bool
    requires { n + length log.now < 2 ^ 64 }
    ensures { IsTrue result ↔ (entries.now ≡ told_from n log.now) }
{
    match log {
        [] => entries.is_empty(),
        [event, rest @ ..] => {
            let after = n + sends(event);
            if !tells(event) {
                return are_told_from(entries, rest, after);
            }
            match entries {
                [] => false,
                [entry, others @ ..] => {
                    let here = is_entry_of(entry, event, n);
                    let later = are_told_from(others, rest, after);
                    here && later
                }
            }
        }
    }
}

/// Whether the entries are those that the log tells.
#[tactic(auto, using(crate::proofs::ToldLemmas::told_is))]
pub fn are_told(entries: &[MemEvent], log: &[Event]) -> bool
    ensures { IsTrue result ↔ (entries.now ≡ told log.now) }
{
    are_told_from(entries, log, 0)
}
