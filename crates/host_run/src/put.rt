//! A piece of text, put whole where the sink takes only a part at each call.
ghost use Rattle.std.specs.Prelude.{◌≡◌};
ghost use Rattle.host_io.specs.Causes.{HasCause};
ghost use Rattle.host_text.specs.Writing.{Writes};

use host_io::{Sink, SinkFailed};

/// Puts a whole piece.
pub fn put<K: Sink>(out: &mut K, piece: &[u8]) -> Result<(), SinkFailed>
    ensures tells { K.tells out.new ≡ K.tells out.old }
    ensures text { Writes (K.tells out.old) (K.appended out.old) (K.appended out.new) piece.now
        result }
    ensures cause { HasCause (K.faults out.old) (K.faults out.new) result }
{
    let mut count = 0;
    while count < piece.len() {
        count += out.put(&piece[count..])?;
    }
    Ok(())
}
