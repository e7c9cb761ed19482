//! What the steps of a run may have left in a block.

use host_block::Op;
use host_model::Step;

/// What is known of the bytes that a block is held against.
#[derive(Clone, Copy, Debug, PartialEq, Eq)]
struct Match {
    /// They are what the last write or trim that ended well left, or what stood there before all.
    is_last: bool,
    /// A write or trim after it faulted, and had them.
    is_doubtful: bool,
    /// They stood there, or may have, since the last flush that ended well.
    is_earlier: bool,
}

/// Whether the steps allow that a block is left with these bytes, which had others before them.
pub fn allows(steps: &[Step], b: u64, before: &[u8], now: &[u8]) -> bool {
    let mut found = Match {
        is_last: before == now,
        is_doubtful: false,
        is_earlier: false,
    };
    for step in steps {
        found = found.after(step, b, now);
    }
    found.is_last || found.is_doubtful || found.is_earlier
}

impl Match {
    fn after(self, step: &Step, b: u64, now: &[u8]) -> Match {
        match step.op {
            Op::Write if step.block == b => self.after_change(
                step.faulted,
                step.bytes.as_slice() == now,
            ),
            Op::Trim if step.block == b => {
                self.after_change(step.faulted, now.iter().all(|byte| *byte == 0))
            }
            Op::Flush if !step.faulted => Match {
                is_earlier: false,
                ..self
            },
            _ => self,
        }
    }

    // After a write or a trim whose bytes are the ones that are looked for, or others.
    fn after_change(self, faulted: bool, is_same: bool) -> Match {
        if faulted {
            return Match {
                is_doubtful: self.is_doubtful || is_same,
                ..self
            };
        }
        Match {
            is_last: is_same,
            is_doubtful: false,
            is_earlier: self.is_earlier || self.is_last || self.is_doubtful,
        }
    }
}
