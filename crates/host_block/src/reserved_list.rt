// A list that takes its memory ahead, so that adding an element takes none.
ghost use Rattle.std.specs.Prelude.{◌≡◌, ◌+◌, ◌<◌, [], ◌∷◌, ◌++◌, length, max, IfOk, OnOk, OnErr};
ghost use Rattle.std.specs.Prelude.{IsTrue, ◌↔◌, slice_get, option_copied};
ghost use Rattle.host_block.specs.Room.{spare_of};

use crate::Oom;
use std::alloc::Global;
use std::marker::Model;

/// A list of the elements that were pushed, seen as these and the number of elements that it has
/// room for in all.
#[derive(Drop)]
pub struct ReservedList<T> {
    entries: Vec<T>,
    room: u64,
}

impl<T> Model for ReservedList<T> {
    ghost use Rattle.std.specs.Prelude.{◌≤◌, length, vec_capacity};
    ghost use Rattle.host_block.specs.Room.{WithRoom};

    ghost Value = { WithRoom T };

    ghost view = { λ l. record { items = l.entries.items; room = l.room } };

    ghost invariant = { λ l.
        (length l.entries.items ≤ l.room) × (l.room ≤ vec_capacity l.entries) };
}

impl<T> ReservedList<T> {
    /// An empty list with room for `n` elements.
    pub fn with_room(alloc: Global, n: u64) -> Result<Self, Oom>
        ensures empty { IfOk result (λ l. l.items ≡ []) }
        ensures room { IfOk result (λ l. l.room ≡ n) }
    {
        match Vec::with_capacity(alloc, n as usize) {
            Ok(entries) => Ok(ReservedList { entries, room: n }),
            Err(_) => Err(Oom),
        }
    }

    /// Adds an element at the end. It takes no memory.
    pub fn push(&mut self, element: T)
        requires { length self.old.items < self.old.room }
        ensures { self.new ≡ record self.old { items = self.old.items ++ element ∷ [] } }
    {
        match self.entries.push(element) {
            Ok(()) => (),
            Err(_) => unreachable!("the room is within the capacity"),
        }
    }

    /// Makes room for `n` elements more than there are.
    pub fn reserve(&mut self, n: u64) -> Result<(), Oom>
        ensures ok { OnOk result (self.new
            ≡ record self.old { room = max self.old.room (length self.old.items + n) }) }
        ensures err { OnErr result (self.new ≡ self.old) }
    {
        if self.entries.reserve(n as usize).is_err() {
            return Err(Oom);
        }
        self.room = self.room.max(self.entries.len() as u64 + n);
        Ok(())
    }

    pub fn len(&self) -> u64
        ensures { result ≡ length self.now.items }
    {
        self.entries.len() as u64
    }

    pub fn is_empty(&self) -> bool
        ensures { IsTrue result ↔ (self.now.items ≡ []) }
    {
        self.entries.is_empty()
    }

    /// How many elements may still be pushed.
    pub fn spare(&self) -> u64
        ensures { result ≡ spare_of self.now }
    {
        self.room - self.entries.len() as u64
    }

    pub fn get(&self, i: u64) -> Option<&T>
        ensures { option_copied result ≡ slice_get self.now.items i }
    {
        self.entries.get(i as usize)
    }

    pub fn as_slice(&self) -> &[T]
        ensures { result.now ≡ self.now.items }
    {
        &self.entries
    }
}
