//! The pieces that shows are put into, taken before the sessions begin.
ghost use Rattle.std.specs.Prelude.{◌≡◌, All, length, IfOk};
ghost use Rattle.script_model.specs.Plans.{plans_of};
ghost use Rattle.host_play.specs.Casts.{AreAllPieces};
ghost use Rattle.host_play.specs.Pieces.{ArePieces, FitsShow, piece_length};

use host_block::{BlockSize, Bytes, Oom};
use script_model::{Script, ScriptLine};
use std::alloc::Global;

/// The pieces of each session.
pub fn all_pieces(alloc: Global, script: &Script, size: BlockSize) -> Result<Vec<Vec<Bytes>>, Oom>
    requires { All (λ session. All FitsShow session.lines.items) script.now.sessions.items }
    ensures { IfOk result (λ pieces. AreAllPieces size (plans_of script.now) pieces.items) }
{
    let mut all = Vec::new(alloc);
    for session in script.sessions.as_slice() {
        let pieces = pieces_for(alloc, session.lines.as_slice(), size)?;
        if all.push(pieces).is_err() {
            return Err(Oom);
        }
    }
    Ok(all)
}

// A piece for each line that shows, the last one's first.
fn pieces_for(alloc: Global, lines: &[ScriptLine], size: BlockSize) -> Result<Vec<Bytes>, Oom>
    requires { All FitsShow lines.now }
    ensures { IfOk result (λ pieces. ArePieces size lines.now pieces.items) }
{
    let mut pieces = Vec::new(alloc);
    for line in lines {
        if let Some(length) = piece_length(line, size) {
            let piece = Bytes::zeroed(alloc, length)?;
            if pieces.push(piece).is_err() {
                return Err(Oom);
            }
        }
    }
    pieces.reverse();
    Ok(pieces)
}

// How long the piece of a line is.
fn piece_length(line: &ScriptLine, size: BlockSize) -> Option<u32>
    requires { FitsShow line.now }
    ensures { result ≡ piece_length size line.now }
{
    match line {
        ScriptLine::Show { count, .. } => Some(*count * size.bytes()),
        _ => None,
    }
}
