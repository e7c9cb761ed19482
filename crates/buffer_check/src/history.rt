//! The history of a session's buffers, by itself and by the client's log.
ghost use Rattle.std.specs.Prelude.{◌≡◌, ◌++◌, [], filter, map, if◌then◌else◌, ◌∷◌, IfOk, OnOk};
ghost use Rattle.std.specs.List.{cons_option};
ghost use Rattle.host_model.specs.ClientEntries.{is_client};
ghost use Rattle.host_model.specs.RecordEntries.{entries_of, record_entry};

use crate::events::copy_of;
use host_block::Oom;
use host_model::{MemEntry, MemEvent};
use std::alloc::Global;

fn push_some(list: &mut Vec<MemEvent>, event: Option<MemEvent>) -> Result<(), Oom>
    ensures { OnOk result (list.new.items ≡ list.old.items ++ cons_option event []) }
{
    match event {
        Some(event) => match list.push(event) {
            Ok(()) => Ok(()),
            Err(_) => Err(Oom),
        },
        None => Ok(()),
    }
}

fn push_if(list: &mut Vec<MemEvent>, event: &MemEvent, wanted: bool) -> Result<(), Oom>
    ensures { OnOk result
        (list.new.items ≡ list.old.items ++ (if wanted then event.now ∷ [] else [])) }
{
    if wanted {
        let event = copy_of(event)?;
        if list.push(event).is_err() {
            return Err(Oom);
        }
    }
    Ok(())
}

/// What was done, without by whom.
#[tactic(auto, using(std::proofs::lemmas::List::map_more))]
pub fn events_of(alloc: Global, entries: &[MemEntry]) -> Result<Vec<MemEvent>, Oom>
    ensures { IfOk result (λ v. v.items ≡ map (λ e. e.what) entries.now) }
{
    let mut list = Vec::new(alloc);
    for entry in entries {
        let event = copy_of(&entry.what)?;
        if list.push(event).is_err() {
            return Err(Oom);
        }
    }
    Ok(list)
}

/// Whether the client did it.
pub fn is_of_client(event: &MemEvent) -> bool
    ensures { result ≡ is_client event.now }
{
    match event {
        MemEvent::Attach { .. } => true,
        MemEvent::Fill { .. } => true,
        MemEvent::Show { .. } => true,
        _ => false,
    }
}

/// What the client did.
#[tactic(auto, using(std::proofs::lemmas::List::Elements::filter_more))]
pub fn client_entries(alloc: Global, history: &[MemEvent]) -> Result<Vec<MemEvent>, Oom>
    ensures { IfOk result (λ v. v.items ≡ filter is_client history.now) }
{
    let mut list = Vec::new(alloc);
    for event in history {
        push_if(&mut list, event, is_of_client(event))?;
    }
    Ok(list)
}

// The entry, where it was made for record i.
fn entry_of_record(i: usize, event: &MemEvent) -> Result<Option<MemEvent>, Oom>
    ensures { IfOk result (λ o. o ≡ record_entry i event.now) }
{
    match event {
        MemEvent::Pin { index, id, .. } if *index as usize == i => Ok(Some(MemEvent::Pin {
            index: *index,
            id: *id,
            by: 0,
        })),
        MemEvent::Lift { index, .. }
        | MemEvent::Land { index, .. }
        | MemEvent::Done { index, .. }
        | MemEvent::Close { index, .. }
            if *index as usize == i => { Ok(Some(copy_of(event)?)) }
        _ => Ok(None),
    }
}

/// The entries made for record i.
#[tactic(auto, using(record_check::proofs::BeforeLemmas::filter_map_more))]
pub fn record_entries(alloc: Global, i: usize, history: &[MemEvent]) -> Result<Vec<MemEvent>, Oom>
    ensures { IfOk result (λ v. v.items ≡ entries_of i history.now) }
{
    let mut list = Vec::new(alloc);
    for event in history {
        let entry = entry_of_record(i, event)?;
        push_some(&mut list, entry)?;
    }
    Ok(list)
}
