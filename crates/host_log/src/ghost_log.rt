//! A log whose entries only clauses see. It keeps their number.
ghost use Rattle.std.specs.Prelude.{◌≡◌, ◌+◌, ◌<◌, ◌^◌, ◌≤◌, [], ◌∷◌, ◌++◌, length, max, IfOk};
ghost use Rattle.std.specs.Prelude.{OnOk, OnErr};
ghost use Rattle.host_block.specs.Room.{WithRoom, spare_of};

use crate::ghosts::Ghost;
use crate::listing::Listing;
use crate::log::Log;
use crate::note::Note;
use crate::told::Told;
use host_block::{Oom, ReservedList};
use std::alloc::Global;
use std::collections::LinkedList;
use std::marker::Model;

/// The number of the entries that were pushed, the number of entries that may be pushed in all,
/// and, for clauses, the entries. It takes no memory.
#[derive(Drop)]
pub struct GhostLog<T> {
    count: u64,
    room: u64,
    entries: Ghost<LinkedList<T>>,
}

impl<T> Model for GhostLog<T> {
    ghost use Rattle.std.specs.Prelude.{◌≡◌, ◌≤◌, length};
    ghost use Rattle.host_block.specs.Room.{WithRoom};

    ghost Value = { WithRoom T };

    ghost view = { λ l. record { items = l.entries.value; room = l.room } };

    ghost invariant = { λ l. (l.count ≡ length l.entries.value) × (l.count ≤ l.room) };
}

impl<T> GhostLog<T> {
    /// An empty log in which `n` entries fit. It takes no memory.
    pub fn with_room(n: u64) -> GhostLog<T>
        ensures empty { result.items ≡ [] }
        ensures room { result.room ≡ n }
    {
        GhostLog {
            count: 0,
            room: n,
            entries: no_entries(),
        }
    }

    /// A log of the entries that a listing tells, in which no more fit.
    pub fn told<L: Listing<Entry = T>>(listing: &L) -> GhostLog<T>
        ensures { result.items ≡ L.entries listing.now }
    {
        let count = listing.count();
        GhostLog {
            count,
            room: count,
            entries: listed(listing),
        }
    }

    // A log of the entries of a list, in which no more fit.
    pub(crate) fn like(list: &ReservedList<T>) -> GhostLog<T>
        ensures items { result.items ≡ list.now.items }
        ensures room { result.room ≡ length list.now.items }
    {
        let count = list.len();
        GhostLog {
            count,
            room: count,
            entries: kept(list),
        }
    }

    /// Notes an entry at the end.
    pub fn note(&mut self, entry: &T)
        requires { length self.old.items < self.old.room }
        ensures { self.new ≡ record self.old { items = self.old.items ++ entry.now ∷ [] } }
    {
        self.entries = and_entry(&self.entries, entry);
        self.count += 1;
    }

    /// Notes the entry that a note tells at the end.
    pub fn note_by<N: Note<Entry = T>>(&mut self, note: &N)
        requires { length self.old.items < self.old.room }
        ensures { self.new ≡ record self.old { items = self.old.items ++ N.entry note.now ∷ [] } }
    {
        self.entries = and_told(&self.entries, note);
        self.count += 1;
    }

    /// Notes the entry that is told at the end.
    pub fn note_told<N: Told<Entry = T>>(&mut self, told: &N)
        requires { length self.old.items < self.old.room }
        ensures { self.new ≡ record self.old { items = self.old.items ++ N.entry told.now ∷ [] } }
    {
        self.entries = and_unmade(&self.entries, told);
        self.count += 1;
    }

    /// Lets `n` entries more than there are fit. It has `Oom` for an answer where that is no number
    /// of 64 bits.
    pub fn reserve(&mut self, n: u64) -> Result<(), Oom>
        ensures ok { OnOk result (self.new
            ≡ record self.old { room = max self.old.room (length self.old.items + n) }) }
        ensures err { OnErr result ((self.new ≡ self.old) × (2 ^ 64 ≤ length self.old.items + n)) }
    {
        if n > u64::MAX - self.count {
            return Err(Oom);
        }
        self.widen(n);
        Ok(())
    }

    pub(crate) fn widen(&mut self, n: u64)
        requires { length self.old.items + n < 2 ^ 64 }
        ensures { self.new
            ≡ record self.old { room = max self.old.room (length self.old.items + n) } }
    {
        self.room = self.room.max(self.count + n);
    }

    pub fn len(&self) -> u64
        ensures { result ≡ length self.now.items }
    {
        self.count
    }

    /// How many entries may still be noted.
    pub fn spare(&self) -> u64
        ensures { result ≡ spare_of self.now }
    {
        self.room - self.count
    }
}

impl<T: Drop> GhostLog<T> {
    /// Notes an entry at the end, and lets it go.
    pub fn push(&mut self, entry: T)
        requires { length self.old.items < self.old.room }
        ensures { self.new ≡ record self.old { items = self.old.items ++ entry ∷ [] } }
    {
        self.note(&entry);
    }
}

impl<T: Drop> Log for GhostLog<T> {
    type Entry = T;

    ghost seen = { λ l. l };

    fn with_room(_alloc: Global, n: u64) -> Result<Self, Oom> {
        Ok(GhostLog::with_room(n))
    }

    fn push(&mut self, entry: T) {
        self.push(entry);
    }

    fn reserve(&mut self, n: u64) -> Result<(), Oom> {
        self.reserve(n)
    }

    fn len(&self) -> u64 {
        self.len()
    }

    fn spare(&self) -> u64 {
        self.spare()
    }
}

fn no_entries<T>() -> Ghost<LinkedList<T>>
    ensures { result.value ≡ [] }
{
    Ghost::of(&(), &())
}

fn listed<T, L: Listing<Entry = T>>(listing: &L) -> Ghost<LinkedList<T>>
    ensures { result.value ≡ L.entries listing.now }
{
    Ghost::of(listing, &())
}

fn kept<T>(list: &ReservedList<T>) -> Ghost<LinkedList<T>>
    ensures { result.value ≡ list.now.items }
{
    Ghost::of(list, &())
}

fn and_entry<T>(entries: &Ghost<LinkedList<T>>, entry: &T) -> Ghost<LinkedList<T>>
    ensures { result.value ≡ entries.now.value ++ entry.now ∷ [] }
{
    Ghost::of(entries, entry)
}

fn and_unmade<T, N: Told<Entry = T>>(
    entries: &Ghost<LinkedList<T>>,
    told: &N,
) -> Ghost<LinkedList<T>>
    ensures { result.value ≡ entries.now.value ++ N.entry told.now ∷ [] }
{
    Ghost::of(entries, told)
}

fn and_told<T, N: Note<Entry = T>>(entries: &Ghost<LinkedList<T>>, note: &N) -> Ghost<LinkedList<T>>
    ensures { result.value ≡ entries.now.value ++ N.entry note.now ∷ [] }
{
    Ghost::of(entries, note)
}
