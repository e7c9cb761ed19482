//! What pages contain, and whether shows and lifts tell it.
ghost use Rattle.std.specs.Prelude.{◌≡◌, ◌↔◌, ◌+◌, ◌++◌, [], IsTrue, ◌&&◌, nat_le, nat_lt};
ghost use Rattle.std.specs.Prelude.{replicate, flat_map, filter_map, unwrap_or, IfOk, OnOk};
ghost use Rattle.std.specs.List.{cons_option, range_with_len};
ghost use Rattle.host_model.specs.Lists.{all_with_before, map_with_before};
ghost use Rattle.host_model.specs.Pages.{found_by, lifts_page, page_at, page_put_by, shown_bytes};

use host_block::{Bytes, Oom};
use host_model::{Event, MemEvent};
use std::alloc::Global;

fn lies_in(n: u64, block: u32, count: u32) -> bool
    ensures { result ≡ nat_le block n && nat_lt n (block + count) }
{
    block as u64 <= n && n < block as u64 + count as u64
}

fn filled(alloc: Global, size: u32, byte: u8) -> Result<Bytes, Oom>
    ensures { IfOk result (λ b. b ≡ replicate size byte) }
{
    match vec![in alloc; byte; size as usize] {
        Ok(bytes) => Bytes::copied(alloc, &bytes),
        Err(_) => Err(Oom),
    }
}

// Page n of the buffer after one more entry.
fn page_after(
    alloc: Global,
    size: u32,
    event: &MemEvent,
    v: u16,
    n: u64,
    page: Bytes,
) -> Result<Bytes, Oom>
    ensures { IfOk result (λ p. p ≡ unwrap_or (page_put_by size v n event.now) page) }
{
    match event {
        MemEvent::Fill {
            id,
            block,
            count,
            byte,
        } => {
            if *id == v && lies_in(n, *block, *count) {
                filled(alloc, size, *byte)
            } else {
                Ok(page)
            }
        }
        MemEvent::Land {
            id,
            block,
            bytes,
            ..
        } => {
            if *id == v && *block as u64 == n {
                Bytes::copied(alloc, bytes.as_slice())
            } else {
                Ok(page)
            }
        }
        _ => Ok(page),
    }
}

/// Page n of the buffer after these entries.
pub fn page(alloc: Global, size: u32, history: &[MemEvent], v: u16, n: u64) -> Result<Bytes, Oom>
    ensures { IfOk result (λ p. p ≡ page_at size history.now v n) }
{
    let mut page = Bytes::zeroed(alloc, size)?;
    for event in history {
        page = page_after(alloc, size, event, v, n, page)?;
    }
    Ok(page)
}

fn extend(list: &mut Vec<u8>, more: &Bytes) -> Result<(), Oom>
    ensures { OnOk result (list.new.items ≡ list.old.items ++ more.now) }
{
    match list.extend_from_slice(more.as_slice()) {
        Ok(()) => Ok(()),
        Err(_) => Err(Oom),
    }
}

// The pages of the buffer from a block on.
fn pages_from(
    alloc: Global,
    size: u32,
    history: &[MemEvent],
    v: u16,
    block: u32,
    count: u32,
) -> Result<Bytes, Oom>
    ensures { IfOk result
        (λ b. b ≡ flat_map (λ n. page_at size history.now v n) (range_with_len block count)) }
{
    let mut bytes = Vec::new(alloc);
    for k in 0..count {
        let page = page(alloc, size, history, v, block as u64 + k as u64)?;
        extend(&mut bytes, &page)?;
    }
    Bytes::copied(alloc, &bytes)
}

// What a show finds after these entries.
fn found(
    alloc: Global,
    size: u32,
    before: &[MemEvent],
    event: &MemEvent,
) -> Result<Option<Bytes>, Oom>
    ensures { IfOk result (λ o. o ≡ found_by size before.now event.now) }
{
    match event {
        MemEvent::Show { id, block, count } => {
            Ok(Some(pages_from(alloc, size, before, *id, *block, *count)?))
        }
        _ => Ok(None),
    }
}

fn shown(alloc: Global, event: &Event) -> Result<Option<Bytes>, Oom>
    ensures { IfOk result (λ o. o ≡ shown_bytes event.now) }
{
    match event {
        Event::Shown { done, bytes, .. } => {
            if *done {
                Ok(Some(Bytes::copied(alloc, bytes.as_slice())?))
            } else {
                Ok(None)
            }
        }
        _ => Ok(None),
    }
}

fn push_some(list: &mut Vec<Bytes>, bytes: Option<Bytes>) -> Result<(), Oom>
    ensures { OnOk result (list.new.items ≡ list.old.items ++ cons_option bytes []) }
{
    match bytes {
        Some(bytes) => match list.push(bytes) {
            Ok(()) => Ok(()),
            Err(_) => Err(Oom),
        },
        None => Ok(()),
    }
}

// What the shows of a history found.
fn all_found(alloc: Global, size: u32, history: &[MemEvent]) -> Result<Vec<Bytes>, Oom>
    ensures { IfOk result (λ v. v.items ≡ map_with_before (found_by size) history.now) }
{
    let mut list = Vec::new(alloc);
    for i in 0..history.len() {
        let bytes = found(alloc, size, &history[..i], &history[i])?;
        push_some(&mut list, bytes)?;
    }
    Ok(list)
}

// What a client was shown.
fn all_shown(alloc: Global, log: &[Event]) -> Result<Vec<Bytes>, Oom>
    ensures { IfOk result (λ v. v.items ≡ filter_map shown_bytes log.now) }
{
    let mut list = Vec::new(alloc);
    for event in log {
        let bytes = shown(alloc, event)?;
        push_some(&mut list, bytes)?;
    }
    Ok(list)
}

fn are_same(a: &Bytes, b: &Bytes) -> bool
    ensures { IsTrue result ↔ (a.now ≡ b.now) }
{
    a.as_slice() == b.as_slice()
}

fn all_equal(these: &[Bytes], those: &[Bytes]) -> bool
    ensures { IsTrue result ↔ (these.now ≡ those.now) }
{
    match (these, those) {
        ([], []) => true,
        ([a, these @ ..], [b, those @ ..]) => are_same(a, b) && all_equal(these, those),
        _ => false,
    }
}

/// Whether each show gave what it found.
pub fn shows_are_right(
    alloc: Global,
    size: u32,
    log: &[Event],
    history: &[MemEvent],
) -> Result<bool, Oom>
    ensures { IfOk result (λ b.
        IsTrue b ↔ (filter_map shown_bytes log.now ≡ map_with_before (found_by size) history.now)) }
{
    let shown = all_shown(alloc, log)?;
    let found = all_found(alloc, size, history)?;
    Ok(all_equal(&shown, &found))
}

fn lift_is_right(
    alloc: Global,
    size: u32,
    before: &[MemEvent],
    event: &MemEvent,
) -> Result<bool, Oom>
    ensures { IfOk result (λ b. b ≡ lifts_page size before.now event.now) }
{
    match event {
        MemEvent::Lift {
            id,
            block,
            bytes,
            ..
        } => {
            let page = page(alloc, size, before, *id, *block as u64)?;
            Ok(bytes.as_slice() == page.as_slice())
        }
        _ => Ok(true),
    }
}

/// Whether each lift took what stood in its page.
pub fn lifts_are_right(alloc: Global, size: u32, history: &[MemEvent]) -> Result<bool, Oom>
    ensures { IfOk result (λ b. b ≡ all_with_before (lifts_page size) history.now) }
{
    let mut all = true;
    for i in 0..history.len() {
        let here = lift_is_right(alloc, size, &history[..i], &history[i])?;
        all = all & here;
    }
    Ok(all)
}
