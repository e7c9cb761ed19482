// The used entries of a table, and the ranges of those that are served.
ghost use Rattle.std.specs.Prelude.{◌≡◌, ◌^◌, ◌-◌, ◌<◌, ◌↔◌, IsTrue, IfNone, IfOk, IfSome, IsErrOf};
ghost use Rattle.std.specs.Option.{option_copied};
ghost use Rattle.host_gpt.specs.Entries.{AreUsed};
ghost use Rattle.host_part.specs.Served.{IsAlone, IsServed, Shares, layout_of};
ghost use Rattle.host_part.specs.Ranges.{IsBad, IsEntryOf, IsRangeOf, IsNumberUnused};

use crate::PartError;
use host_block::{Oom, Range};
use host_gpt::{Entry, Table};
use std::alloc::Global;
use std::marker::Model;

/// A table as it is served: its usable blocks, the number of blocks of the image, and its used
/// entries.
#[derive(Drop)]
pub struct Parts {
    first_usable: u64,
    last_usable: u64,
    blocks: u64,
    entries: Vec<Entry>,
}

impl Model for Parts {
    ghost use Rattle.host_gpt.specs.Entries.{AreUsed};
    ghost use Rattle.host_part.specs.Served.{Layout};

    ghost Value = { Layout };

    ghost view = { λ p.
        record {
          first_usable = p.first_usable;
          last_usable = p.last_usable;
          blocks = p.blocks;
          entries = p.entries.items;
        } };

    ghost invariant = { λ p. AreUsed p.entries.items };
}

/// The parts of a table, on an image of so many blocks.
pub fn serve(alloc: Global, table: &Table, blocks: u64) -> Result<Parts, Oom>
    requires { AreUsed table.now.entries.items }
    ensures { IfOk result (λ parts. parts ≡ layout_of table.now blocks) }
{
    match table.entries.as_slice().to_vec(alloc) {
        Ok(entries) => Ok(Parts {
            first_usable: table.first_usable,
            last_usable: table.last_usable,
            blocks,
            entries,
        }),
        Err(_) => Err(Oom),
    }
}

impl Parts {
    /// The range of the partition with this number.
    pub fn range(&self, number: u32) -> Result<Range, PartError>
        ensures ok { IfOk result (IsRangeOf self.now number) }
        ensures unused { IsErrOf result PartError.Unused ↔ IsNumberUnused self.now number }
        ensures bad { IsErrOf result PartError.BadEntry ↔ IsBad self.now number }
    {
        match self.entry(number) {
            Some(entry) => {
                if self.is_served(entry) {
                    Ok(Range {
                        first: entry.first,
                        count: entry.last - entry.first + 1,
                    })
                } else {
                    Err(PartError::BadEntry)
                }
            }
            None => Err(PartError::Unused),
        }
    }

    // The used entry with this number.
    fn entry(&self, number: u32) -> Option<&Entry>
        ensures found { IfSome (option_copied result) (IsEntryOf self.now number) }
        ensures none { IfNone result (IsNumberUnused self.now number) }
        ensures used { AreUsed self.now.entries }
    {
        self.entries.iter().find(|entry| entry.number == number)
    }

    // Whether an entry is served. It then ends before the greatest number.
    fn is_served(&self, entry: &Entry) -> bool
        ensures served { IsTrue result ↔ IsServed self.now entry.now }
        ensures ends { IsTrue result → entry.now.last < 2 ^ 64 - 1 }
    {
        let lies_inside = self.first_usable <= entry.first
            && entry.first <= entry.last
            && entry.last <= self.last_usable
            && self.last_usable < self.blocks;
        lies_inside && is_alone(&self.entries, entry)
    }
}

// Whether no entry with another number shares a block with this one.
fn is_alone(entries: &[Entry], entry: &Entry) -> bool
    ensures { IsTrue result ↔ IsAlone entries.now entry.now }
{
    entries.iter().all(|other| other.number == entry.number || !shares(entry, other))
}

// Whether two entries share a block.
fn shares(one: &Entry, other: &Entry) -> bool
    ensures { IsTrue result ↔ Shares one.now other.now }
{
    one.first.max(other.first) <= one.last.min(other.last)
}
