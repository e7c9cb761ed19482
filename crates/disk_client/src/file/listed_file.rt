//! A raw file of which listed calls fail.

use host_file::{OpenError, RawFailed, RawFile};

/// A call of a raw file, by its kind and its number from 1 among those of its kind.
#[derive(Clone, Copy, Debug, PartialEq, Eq)]
pub enum Call {
    Open(u32),
    Read(u32),
    Write(u32),
    Sync(u32),
}

/// A file of which no byte is kept. The listed calls fail, an opening with this refusal.
#[derive(Drop)]
pub struct ListedFile {
    fails: &'static [Call],
    refusal: OpenError,
    opened: u64,
    present: Option<u64>,
    opens: u32,
    reads: u32,
    writes: u32,
    syncs: u32,
}

impl ListedFile {
    /// A file that has `opened` bytes when it is opened, and tells `present` bytes later.
    pub fn new(
        fails: &'static [Call],
        refusal: OpenError,
        opened: u64,
        present: Option<u64>,
    ) -> ListedFile {
        ListedFile {
            fails,
            refusal,
            opened,
            present,
            opens: 0,
            reads: 0,
            writes: 0,
            syncs: 0,
        }
    }

    fn answer(&self, call: Call) -> Result<(), RawFailed> {
        if self.fails.contains(&call) {
            return Err(RawFailed);
        }
        Ok(())
    }
}

impl RawFile for ListedFile {
    ghost opens = { λ f name writes answer after. Unit {0} };

    ghost measures = { λ f answer. Unit {0} };

    ghost reads = { λ f place bytes done after. Unit {0} };

    ghost puts = { λ f place bytes done after. Unit {0} };

    ghost syncs = { λ f done after. Unit {0} };

    fn open(&mut self, _name: &str, _writes: bool) -> Result<u64, OpenError> {
        self.opens = self.opens.saturating_add(1);
        match self.answer(Call::Open(self.opens)) {
            Ok(()) => Ok(self.opened),
            Err(_) => Err(self.refusal),
        }
    }

    fn length(&self) -> Option<u64> {
        self.present
    }

    fn read_at(&mut self, _place: u64, _into: &mut [u8]) -> Result<(), RawFailed> {
        self.reads = self.reads.saturating_add(1);
        self.answer(Call::Read(self.reads))
    }

    fn write_at(&mut self, _place: u64, _from: &[u8]) -> Result<(), RawFailed> {
        self.writes = self.writes.saturating_add(1);
        self.answer(Call::Write(self.writes))
    }

    fn sync(&mut self) -> Result<(), RawFailed> {
        self.syncs = self.syncs.saturating_add(1);
        self.answer(Call::Sync(self.syncs))
    }
}
