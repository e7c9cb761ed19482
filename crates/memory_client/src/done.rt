//! What a list of what was done tells.
ghost use Rattle.std.specs.Prelude.{◌≡◌, None, IsTrue};
ghost use Rattle.host_model.specs.Lists.{count};
ghost use Rattle.host_model.specs.Releases.{is_close_of};
ghost use Rattle.host_memory.specs.Held.{closer_of, is_block_of, is_given_by};
ghost use Rattle.host_memory.specs.Pins.{is_done_for, is_pin_by, is_pin_for, is_pinned_by};
ghost use Rattle.memory_client.specs.Played.{has_page};

use host_model::MemEvent;

fn attaches(e: &MemEvent, id: u16) -> bool
    ensures { result ≡ is_given_by id e.now }
{
    match e {
        MemEvent::Attach { id: given, .. } => *given == id,
        _ => false,
    }
}

// Whether the attach has so many pages.
fn is_within(e: &MemEvent, block: u32) -> bool
    ensures { result ≡ has_page block e.now }
{
    match e {
        MemEvent::Attach { pages, .. } => block < *pages,
        _ => false,
    }
}

fn closes(e: &MemEvent, id: u16) -> bool
    ensures { result ≡ is_close_of id e.now }
{
    match e {
        MemEvent::Close { id: closed, .. } => *closed == id,
        _ => false,
    }
}

fn pins_for(e: &MemEvent, index: u32) -> bool
    ensures { result ≡ is_pin_for index e.now }
{
    match e {
        MemEvent::Pin { index: pinned, .. } => index == *pinned,
        _ => false,
    }
}

fn ends(e: &MemEvent, index: u32) -> bool
    ensures { result ≡ is_done_for index e.now }
{
    match e {
        MemEvent::Done { index: ended, .. } => *ended == index,
        _ => false,
    }
}

fn pins_by(e: &MemEvent, hand: u32, index: u32, id: u16) -> bool
    ensures { result ≡ is_pin_by hand index id e.now }
{
    match e {
        MemEvent::Pin {
            index: pinned,
            id: held,
            by,
        } => *by == hand && *pinned == index && *held == id,
        _ => false,
    }
}

/// Whether no record closed the buffer.
pub(crate) fn is_open(done: &[MemEvent], id: u16) -> bool
    ensures { IsTrue result → closer_of id done.now ≡ None }
{
    !done.iter().any(|e| closes(e, id))
}

/// Whether the record has pinned nothing.
pub(crate) fn is_first_pin(done: &[MemEvent], index: u32) -> bool
    ensures { IsTrue result → count (is_pin_for index) done.now ≡ 0 }
{
    !done.iter().any(|e| pins_for(e, index))
}

/// Whether the record has pinned the buffer, and this hand carries it out.
pub(crate) fn is_pinned(done: &[MemEvent], hand: u32, index: u32, id: u16) -> bool
    ensures { IsTrue result → IsTrue (is_pinned_by hand index id done.now) }
{
    done.iter().any(|e| pins_by(e, hand, index, id)) && !done.iter().any(|e| ends(e, index))
}

/// Whether the buffer was attached with this block.
pub(crate) fn has_block(done: &[MemEvent], id: u16, block: u32) -> bool
    ensures { result ≡ is_block_of id done.now block }
{
    match done.iter().find(|e| attaches(e, id)) {
        Some(e) => is_within(e, block),
        None => false,
    }
}
