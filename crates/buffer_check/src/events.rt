//! Entries of the buffers' history, copied and compared.
ghost use Rattle.std.specs.Prelude.{◌≡◌, ◌↔◌, IsTrue, IfOk};

use host_block::Oom;
use host_model::{MemEvent, SharedBytes};

/// Whether both are the same bytes.
pub fn are_equal(a: &SharedBytes, b: &SharedBytes) -> bool
    ensures { IsTrue result ↔ (a.now ≡ b.now) }
{
    a.as_slice() == b.as_slice()
}

/// An entry like this one.
pub fn copy_of(event: &MemEvent) -> Result<MemEvent, Oom>
    ensures { IfOk result (λ e. e ≡ event.now) }
{
    Ok(match *event {
        MemEvent::Attach { id, pages, from } => MemEvent::Attach { id, pages, from },
        MemEvent::Fill {
            id,
            block,
            count,
            byte,
        } => MemEvent::Fill {
            id,
            block,
            count,
            byte,
        },
        MemEvent::Show { id, block, count } => MemEvent::Show { id, block, count },
        MemEvent::Pin { index, id, by } => MemEvent::Pin { index, id, by },
        MemEvent::Lift {
            index,
            k,
            id,
            block,
            ref bytes,
        } => MemEvent::Lift {
            index,
            k,
            id,
            block,
            bytes: bytes.share()?,
        },
        MemEvent::Land {
            index,
            k,
            id,
            block,
            ref bytes,
        } => MemEvent::Land {
            index,
            k,
            id,
            block,
            bytes: bytes.share()?,
        },
        MemEvent::Done { index, id } => MemEvent::Done { index, id },
        MemEvent::Close { index, id } => MemEvent::Close { index, id },
        MemEvent::Release { id } => MemEvent::Release { id },
    })
}
