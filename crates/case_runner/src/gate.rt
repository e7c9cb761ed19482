//! A gate that holds records until others have come so far.

use crate::entry::Entry;
use crate::wrong::Wrong;
use host_io::Gate;
use std::alloc::{AllocError, Global};
use std::sync::atomic::{AtomicU64, Ordering};
use std::thread;

/// How often a gate looks, where the case doesn't say.
pub const LOOKS: u64 = 100_000_000;

/// A call of the gate.
#[derive(Clone, Copy, Debug, PartialEq, Eq)]
pub struct Moment {
    pub is_after: bool,
    pub session: u32,
    pub index: u32,
}

/// Who comes to the first moment waits there until the second has come.
#[derive(Clone, Copy, Debug, PartialEq, Eq)]
pub struct Hold {
    pub at: Moment,
    pub until: Moment,
}

/// The hold that a line says.
pub fn read_hold(entry: &Entry<'_>) -> Result<Hold, Wrong> {
    entry.has_count(8)?;
    if entry.word(4) != "until" {
        return Err(entry.wrong("no `until`"));
    }
    Ok(Hold {
        at: read_moment(entry, 1, 2, 3)?,
        until: read_moment(entry, 5, 6, 7)?,
    })
}

fn read_moment(
    entry: &Entry<'_>,
    part: usize,
    session: usize,
    index: usize,
) -> Result<Moment, Wrong> {
    let is_after = match entry.word(part) {
        "before" => false,
        "after" => true,
        _ => return Err(entry.wrong("neither before nor after")),
    };
    Ok(Moment {
        is_after,
        session: entry.small_number(session)?,
        index: entry.small_number(index)?,
    })
}

// A hold, and what has come of it.
#[derive(Drop)]
struct HeldAt {
    hold: Hold,
    came: AtomicU64,
    is_open: AtomicU64,
    gave_up: AtomicU64,
}

impl HeldAt {
    fn new(hold: Hold) -> HeldAt {
        HeldAt {
            hold,
            came: AtomicU64::new(0),
            is_open: AtomicU64::new(0),
            gave_up: AtomicU64::new(0),
        }
    }

    fn is_open(&self) -> bool {
        self.is_open.load(Ordering::SeqCst) == 1
    }

    fn was_opened(&self) -> bool {
        self.is_open()
            && self.came.load(Ordering::SeqCst) == 1
            && self.gave_up.load(Ordering::SeqCst) == 0
    }

    // Waits until it is open, for so many looks at most.
    fn wait(&self, looks: u64) {
        self.came.store(1, Ordering::SeqCst);
        for look in 0..looks {
            if self.is_open() {
                return;
            }
            if look % 100 == 0 {
                thread::yield_now();
            }
        }
        self.gave_up.store(1, Ordering::SeqCst);
    }
}

/// The gate of a case.
#[derive(Drop)]
pub struct CaseGate {
    held: Vec<HeldAt>,
    looks: u64,
}

impl CaseGate {
    pub fn new(alloc: Global, holds: &[Hold], looks: u64) -> Result<CaseGate, AllocError> {
        let mut held = Vec::new(alloc);
        for hold in holds {
            held.push(HeldAt::new(*hold))?;
        }
        Ok(CaseGate { held, looks })
    }

    /// Whether each held moment came, and was let go before the looks ran out.
    pub fn was_opened(&self) -> bool {
        self.held.iter().all(|held| held.was_opened())
    }

    fn open(&self, moment: Moment) {
        for held in &self.held {
            if held.hold.until == moment {
                held.is_open.store(1, Ordering::SeqCst);
            }
        }
    }

    fn meet(&self, moment: Moment) {
        self.open(moment);
        for held in &self.held {
            if held.hold.at == moment {
                held.wait(self.looks);
            }
        }
    }
}

impl Gate for CaseGate {
    fn before(&self, session: u32, index: u32) {
        self.meet(Moment {
            is_after: false,
            session,
            index,
        });
    }

    fn after(&self, session: u32, index: u32) {
        self.meet(Moment {
            is_after: true,
            session,
            index,
        });
    }
}
