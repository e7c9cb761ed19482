//! A log that keeps its entries or not, as it was told when it was made.
ghost use Rattle.std.specs.Prelude.{◌≡◌, ◌+◌, ◌<◌, ◌≤◌, [], ◌∷◌, ◌++◌, length, max, true, false};
ghost use Rattle.std.specs.Prelude.{IfOk, OnOk, OnErr, IfSome, IfNone, IsTrue};
ghost use Rattle.host_log.specs.Switch.{SwitchedLog, spare_in_log};

use crate::ghost_log::GhostLog;
use crate::listing::Listing;
use crate::note::Note;
use crate::told::Told;
use host_block::{Oom, ReservedList};
use std::alloc::Global;
use std::marker::Model;

/// The entries that were pushed, how many fit in all, and whether they are kept.
#[derive(Drop)]
pub struct SwitchLog<T> {
    seen: GhostLog<T>,
    kept: Option<ReservedList<T>>,
}

impl<T> Model for SwitchLog<T> {
    ghost use Rattle.std.specs.Prelude.{◌≡◌, ◌≤◌, IfSome, is_some};
    ghost use Rattle.host_log.specs.Switch.{SwitchedLog};

    ghost Value = { SwitchedLog T };

    ghost view = { λ l.
        record { items = l.seen.items; room = l.seen.room; kept = is_some l.kept } };

    ghost invariant = { λ l.
        IfSome l.kept (λ k. (k.items ≡ l.seen.items) × (l.seen.room ≤ k.room)) };
}

impl<T: Drop> SwitchLog<T> {
    /// An empty log in which `n` entries fit, and which keeps them or not.
    pub fn with_room(alloc: Global, n: u64, keeps: bool) -> Result<Self, Oom>
        ensures empty { IfOk result (λ l. l.items ≡ []) }
        ensures room { IfOk result (λ l. l.room ≡ n) }
        ensures kept { IfOk result (λ l. l.kept ≡ keeps) }
    {
        let seen = GhostLog::with_room(n);
        if !keeps {
            return Ok(SwitchLog { seen, kept: None });
        }
        let kept = ReservedList::with_room(alloc, n)?;
        Ok(SwitchLog {
            seen,
            kept: Some(kept),
        })
    }

    /// A log that keeps the entries of this list.
    pub fn of_list(list: ReservedList<T>) -> Self
        requires { length list.items ≤ list.room }
        ensures items { result.items ≡ list.items }
        ensures kept { result.kept ≡ true }
    {
        SwitchLog {
            seen: GhostLog::like(&list),
            kept: Some(list),
        }
    }

    /// A log of the entries that a listing tells, which keeps none of them.
    pub fn told<L: Listing<Entry = T>>(listing: &L) -> Self
        ensures items { result.items ≡ L.entries listing.now }
        ensures kept { result.kept ≡ false }
    {
        SwitchLog {
            seen: GhostLog::told(listing),
            kept: None,
        }
    }

    /// Adds an entry at the end. It takes no memory.
    pub fn push(&mut self, entry: T)
        requires { length self.old.items < self.old.room }
        ensures { self.new ≡ record self.old { items = self.old.items ++ entry ∷ [] } }
    {
        self.seen.note(&entry);
        if let Some(kept) = &mut self.kept {
            kept.push(entry);
        }
    }

    /// Adds the entry that a note tells at the end. It is made only where the entries are kept.
    pub fn push_note<N: Note<Entry = T>>(&mut self, alloc: Global, note: &N) -> Result<(), Oom>
        requires { length self.old.items < self.old.room }
        ensures ok { OnOk result
            (self.new ≡ record self.old { items = self.old.items ++ N.entry note.now ∷ [] }) }
        ensures err { OnErr result ((self.new ≡ self.old) × (self.old.kept ≡ true)) }
    {
        if let Some(kept) = &mut self.kept {
            kept.push(note.make(alloc)?);
        }
        self.seen.note_by(note);
        Ok(())
    }

    /// Adds the entry that is told at the end of a log that keeps none.
    pub fn note<N: Told<Entry = T>>(&mut self, told: &N)
        requires room { length self.old.items < self.old.room }
        requires unkept { self.old.kept ≡ false }
        ensures { self.new ≡ record self.old { items = self.old.items ++ N.entry told.now ∷ [] } }
    {
        self.seen.note_told(told);
    }

    /// Makes room for `n` entries more than there are.
    pub fn reserve(&mut self, n: u64) -> Result<(), Oom>
        ensures ok { OnOk result (self.new
            ≡ record self.old { room = max self.old.room (length self.old.items + n) }) }
        ensures err { OnErr result (self.new ≡ self.old) }
    {
        if n > u64::MAX - self.seen.len() {
            return Err(Oom);
        }
        if let Some(kept) = &mut self.kept {
            kept.reserve(n)?;
        }
        self.seen.widen(n);
        Ok(())
    }

    pub fn len(&self) -> u64
        ensures { result ≡ length self.now.items }
    {
        self.seen.len()
    }

    /// How many entries may still be pushed.
    pub fn spare(&self) -> u64
        ensures { result ≡ spare_in_log self.now }
    {
        self.seen.spare()
    }

    pub fn is_kept(&self) -> bool
        ensures { result ≡ self.now.kept }
    {
        self.kept.is_some()
    }

    /// The entries, where they are kept.
    pub fn into_list(self) -> Option<ReservedList<T>>
        ensures entries { IfSome result (λ l. l.items ≡ self.items) }
        ensures kept { IfSome result (λ _. self.kept ≡ true) }
        ensures none { IfNone result (self.kept ≡ false) }
    {
        self.kept
    }
}
