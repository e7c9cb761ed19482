// The partitions of the sessions.
ghost use Rattle.std.specs.Prelude.{◌≡◌, ◌≤◌, ◌+◌, length, map, All, IfErr, IfNone, IfOk, IfSome};
ghost use Rattle.host_gpt.specs.Entries.{AreUsed};
ghost use Rattle.host_part.specs.Ranges.{IsRangeOf};
ghost use Rattle.host_start.specs.Images.{FindsPlaces, IsServedPart};
ghost use Rattle.host_start.specs.Refusals.{IsOfTable};

use crate::StartError;
use host_block::Range;
use host_part::Parts;
use script_model::SessionScript;
use std::alloc::Global;

/// A partition, and its blocks.
#[derive(Clone, Copy, Debug, PartialEq, Eq)]
pub struct Place {
    pub part: u32,
    pub range: Range,
}

/// The partitions that these sessions name, in their order, or the first that isn't served.
pub fn find_places(
    alloc: Global,
    parts: &Parts,
    sessions: &[SessionScript],
) -> Result<Vec<Place>, StartError>
    requires few { length sessions.now ≤ 16 }
    requires used { AreUsed parts.now.entries }
    ensures cause { IfErr result IsOfTable }
    ensures finds { FindsPlaces parts.now (map (λ session. session.part) sessions.now) result }
    ensures inside { IfOk result (λ places.
        All (λ place. place.range.first + place.range.count ≤ parts.now.blocks) places.items) }
{
    let mut places = Vec::new(alloc);
    for session in sessions {
        match find_place(parts, session.part) {
            Some(place) => {
                if places.push(place).is_err() {
                    return Err(StartError::Oom);
                }
            }
            None => {
                return Err(StartError::NoPart {
                    session: places.len() as u32 + 1,
                    part: session.part,
                });
            }
        }
    }
    Ok(places)
}

// The partition with this number, where it is served.
fn find_place(parts: &Parts, part: u32) -> Option<Place>
    requires used { AreUsed parts.now.entries }
    ensures named { IfSome result (λ place. place.part ≡ part) }
    ensures range { IfSome result (λ place. IsRangeOf parts.now part place.range) }
    ensures none { IfNone result (¬ IsServedPart parts.now part) }
{
    match parts.range(part) {
        Ok(range) => Some(Place { part, range }),
        Err(_) => None,
    }
}
