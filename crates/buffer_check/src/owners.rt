//! The records that entries belong to.
ghost use Rattle.std.specs.Prelude.{◌≡◌};
ghost use Rattle.buffer_check.specs.Owners.{owner_by};

use crate::releases::record_of;
use host_model::{MemEvent, Verdict};
use host_record::Request;
use record_check::closing_record;

/// The record that an entry belongs to; a release belongs to the record that closes its buffer.
pub fn owner(rs: &[Request], verdicts: &[Verdict], event: &MemEvent) -> Option<usize>
    ensures { result ≡ owner_by rs.now verdicts.now event.now }
{
    match event {
        MemEvent::Release { id } => closing_record(*id, rs, verdicts),
        _ => match record_of(event) {
            Some(index) => Some(index as usize),
            None => None,
        },
    }
}
