//! The places of entries.
ghost use Rattle.std.specs.Prelude.{◌≡◌, ◌==◌, ◌++◌, [], ◌∷◌, if◌then◌else◌, nat_lt, take, drop};
ghost use Rattle.std.specs.Prelude.{IfOk, OnOk, Some};
ghost use Rattle.std.specs.List.{list_all};
ghost use Rattle.std.specs.Option.{option_eq};
ghost use Rattle.host_model.specs.ClientEntries.{is_client};
ghost use Rattle.host_model.specs.Lists.{all_before, places};
ghost use Rattle.host_model.specs.Releases.{is_release_of};
ghost use Rattle.buffer_check.specs.Owners.{owner_by};

use crate::history::is_of_client;
use crate::owners::owner;
use crate::releases::releases;
use host_block::Oom;
use host_model::{MemEvent, Step, Verdict};
use host_record::Request;
use std::alloc::Global;

fn push_if(list: &mut Vec<usize>, place: usize, wanted: bool) -> Result<(), Oom>
    ensures { OnOk result (list.new.items ≡ list.old.items ++ (if wanted then place ∷ [] else [])) }
{
    if wanted {
        if list.push(place).is_err() {
            return Err(Oom);
        }
    }
    Ok(())
}

/// The places of the client's entries.
pub fn client_places(alloc: Global, history: &[MemEvent]) -> Result<Vec<usize>, Oom>
    ensures { IfOk result (λ v. v.items ≡ places is_client history.now) }
{
    let mut list = Vec::new(alloc);
    for i in 0..history.len() {
        push_if(&mut list, i, is_of_client(&history[i]))?;
    }
    Ok(list)
}

/// The places of the releases of a buffer.
pub fn release_places(alloc: Global, history: &[MemEvent], v: u16) -> Result<Vec<usize>, Oom>
    ensures { IfOk result (λ l. l.items ≡ places (is_release_of v) history.now) }
{
    let mut list = Vec::new(alloc);
    for i in 0..history.len() {
        push_if(&mut list, i, releases(&history[i], v))?;
    }
    Ok(list)
}

fn is_of_record(step: &Step, r: usize) -> bool
    ensures { result ≡ (step.now.index == r) }
{
    step.index as usize == r
}

/// The places of the steps of record r.
pub fn step_places(alloc: Global, steps: &[Step], r: usize) -> Result<Vec<usize>, Oom>
    ensures { IfOk result (λ l. l.items ≡ places (λ step. step.index == r) steps.now) }
{
    let mut list = Vec::new(alloc);
    for i in 0..steps.len() {
        push_if(&mut list, i, is_of_record(&steps[i], r))?;
    }
    Ok(list)
}

fn belongs(rs: &[Request], verdicts: &[Verdict], event: &MemEvent, r: usize) -> bool
    ensures { result ≡ option_eq ◌==◌ (owner_by rs.now verdicts.now event.now) (Some r) }
{
    match owner(rs, verdicts, event) {
        Some(o) => o == r,
        None => false,
    }
}

/// The places of the entries that belong to record r.
pub fn entry_places(
    alloc: Global,
    rs: &[Request],
    verdicts: &[Verdict],
    history: &[MemEvent],
    r: usize,
) -> Result<Vec<usize>, Oom>
    ensures { IfOk result (λ l.
        l.items
        ≡ places (λ e. option_eq ◌==◌ (owner_by rs.now verdicts.now e) (Some r)) history.now) }
{
    let mut list = Vec::new(alloc);
    for i in 0..history.len() {
        push_if(&mut list, i, belongs(rs, verdicts, &history[i], r))?;
    }
    Ok(list)
}

fn is_below_all(place: usize, those: &[usize]) -> bool
    ensures { result ≡ list_all (λ b. nat_lt place b) those.now }
{
    those.iter().all(|other| place < *other)
}

/// Whether each of these places is before each of those.
pub fn are_before(these: &[usize], those: &[usize]) -> bool
    ensures { result ≡ all_before these.now those.now }
{
    these.iter().all(|place| is_below_all(*place, those))
}

/// Whether each of the first n of these is.
pub fn first_are_before(these: &[usize], n: usize, those: &[usize]) -> bool
    ensures { result ≡ all_before (take n these.now) those.now }
{
    these
        .iter()
        .take(n)
        .all(|place| is_below_all(*place, those))
}

fn is_below_one(place: usize, those: &[usize], n: usize) -> bool
    ensures { result ≡ list_all (λ b. nat_lt place b) (take 1 (drop n those.now)) }
{
    those.iter().skip(n).take(1).all(|other| place < *other)
}

/// Whether each of these is before the one of those after the first n, if there is one.
pub fn are_before_one(these: &[usize], those: &[usize], n: usize) -> bool
    ensures { result ≡ all_before these.now (take 1 (drop n those.now)) }
{
    these.iter().all(|place| is_below_one(*place, those, n))
}
