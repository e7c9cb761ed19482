//! Whether pages went home as they have to.
ghost use Rattle.std.specs.Prelude.{◌≡◌, nat_eq, IfOk};
ghost use Rattle.std.specs.List.{list_all, list_any};
ghost use Rattle.host_model.specs.Lists.{all_with_before, count, same_counts, within_counts};
ghost use Rattle.host_model.specs.Log.{given, given_id};
ghost use Rattle.host_model.specs.RecordEntries.{index_of, names_taken};
ghost use Rattle.host_model.specs.Releases.{buffer_of, comes_before_release, is_close_of, is_pin};
ghost use Rattle.host_model.specs.Releases.{is_release_of, pins_before_close, released};
ghost use Rattle.host_model.specs.Releases.{released_id};

use host_model::{Event, MemEvent};
use std::alloc::{AllocError, Global};

fn id_given(event: &Event) -> Option<u16>
    ensures { result ≡ given_id event.now }
{
    match event {
        Event::Attached { id, .. } => Some(*id),
        _ => None,
    }
}

/// The ids that a log gave.
pub fn ids_given(alloc: Global, log: &[Event]) -> Result<Vec<u16>, AllocError>
    ensures { IfOk result (λ v. v.items ≡ given log.now) }
{
    log.iter().filter_map(id_given).collect(alloc)
}

fn id_released(event: &MemEvent) -> Option<u16>
    ensures { result ≡ released_id event.now }
{
    match event {
        MemEvent::Release { id } => Some(*id),
        _ => None,
    }
}

/// The ids that were released.
pub fn ids_released(alloc: Global, history: &[MemEvent]) -> Result<Vec<u16>, AllocError>
    ensures { IfOk result (λ v. v.items ≡ released history.now) }
{
    history.iter().filter_map(id_released).collect(alloc)
}

fn times(id: u16, ids: &[u16]) -> usize
    ensures { result ≡ count (nat_eq id) ids.now }
{
    ids.iter().filter(|other| id == **other).count()
}

fn are_within(these: &[u16], those: &[u16]) -> bool
    ensures { result ≡ within_counts nat_eq these.now those.now }
{
    these
        .iter()
        .all(|id| times(*id, these) <= times(*id, those))
}

/// Whether all ids stand in both lists as often.
pub fn are_as_often(these: &[u16], those: &[u16]) -> bool
    ensures { result ≡ same_counts nat_eq these.now those.now }
{
    are_within(these, those) && are_within(those, these)
}

fn buffer(event: &MemEvent) -> u16
    ensures { result ≡ buffer_of event.now }
{
    match event {
        MemEvent::Attach { id, .. } => *id,
        MemEvent::Fill { id, .. } => *id,
        MemEvent::Show { id, .. } => *id,
        MemEvent::Pin { id, .. } => *id,
        MemEvent::Lift { id, .. } => *id,
        MemEvent::Land { id, .. } => *id,
        MemEvent::Done { id, .. } => *id,
        MemEvent::Close { id, .. } => *id,
        MemEvent::Release { id } => *id,
    }
}

fn pins(event: &MemEvent) -> bool
    ensures { result ≡ is_pin event.now }
{
    match event {
        MemEvent::Pin { .. } => true,
        _ => false,
    }
}

fn closes(event: &MemEvent, v: u16) -> bool
    ensures { result ≡ is_close_of v event.now }
{
    match event {
        MemEvent::Close { id, .. } => *id == v,
        _ => false,
    }
}

/// Whether the entry releases the buffer.
pub fn releases(event: &MemEvent, v: u16) -> bool
    ensures { result ≡ is_release_of v event.now }
{
    match event {
        MemEvent::Release { id } => *id == v,
        _ => false,
    }
}

fn is_closed_in(before: &[MemEvent], v: u16) -> bool
    ensures { result ≡ list_any (is_close_of v) before.now }
{
    before.iter().any(|event| closes(event, v))
}

fn is_released_in(before: &[MemEvent], v: u16) -> bool
    ensures { result ≡ list_any (is_release_of v) before.now }
{
    before.iter().any(|event| releases(event, v))
}

fn pins_rightly(before: &[MemEvent], event: &MemEvent) -> bool
    ensures { result ≡ pins_before_close before.now event.now }
{
    !pins(event) || !is_closed_in(before, buffer(event))
}

fn is_not_released(before: &[MemEvent], event: &MemEvent) -> bool
    ensures { result ≡ comes_before_release before.now event.now }
{
    !is_released_in(before, buffer(event))
}

/// Whether no pin of a buffer stands after its close.
pub fn all_pin_rightly(history: &[MemEvent]) -> bool
    ensures { result ≡ all_with_before pins_before_close history.now }
{
    let mut all = true;
    for i in 0..history.len() {
        let here = pins_rightly(&history[..i], &history[i]);
        all = all & here;
    }
    all
}

/// Whether nothing of a buffer stands after its release.
pub fn none_after_release(history: &[MemEvent]) -> bool
    ensures { result ≡ all_with_before comes_before_release history.now }
{
    let mut all = true;
    for i in 0..history.len() {
        let here = is_not_released(&history[..i], &history[i]);
        all = all & here;
    }
    all
}

/// The record for which an entry was made; a release names none.
pub fn record_of(event: &MemEvent) -> Option<u32>
    ensures { result ≡ index_of event.now }
{
    match event {
        MemEvent::Pin { index, .. } => Some(*index),
        MemEvent::Lift { index, .. } => Some(*index),
        MemEvent::Land { index, .. } => Some(*index),
        MemEvent::Done { index, .. } => Some(*index),
        MemEvent::Close { index, .. } => Some(*index),
        _ => None,
    }
}

fn is_of_taken(event: &MemEvent, n: usize) -> bool
    ensures { result ≡ names_taken n event.now }
{
    match record_of(event) {
        Some(index) => (index as usize) < n,
        None => true,
    }
}

/// Whether each entry is of one of the first n records, or of none.
pub fn all_of_taken(history: &[MemEvent], n: usize) -> bool
    ensures { result ≡ list_all (names_taken n) history.now }
{
    history.iter().all(|event| is_of_taken(event, n))
}
