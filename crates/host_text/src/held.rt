// Bytes that are held back until many can go into a sink at once.
ghost use Rattle.std.specs.Prelude.{[]};
ghost use Rattle.host_text.specs.Writing.{PutsHeldText};

use host_io::{Sink, SinkFailed};
use std::marker::Model;

const ROOM: usize = 4096;

/// Up to 4,096 bytes.
#[derive(Drop)]
pub struct Held {
    bytes: [u8; ROOM],
    len: usize,
}

impl Model for Held {
    ghost use Rattle.std.specs.Prelude.{ℕ, ◌≤◌, List, take};

    ghost Value = { List ℕ };

    ghost view = { λ h. take h.len h.bytes };

    ghost invariant = { λ h. h.len ≤ 4096 };
}

impl Held {
    ghost use Rattle.std.specs.Prelude.{◌≡◌, ◌+◌, ◌≤◌, ◌↔◌, IsTrue, ◌++◌, length, OnOk};

    pub fn new() -> Held
        ensures { result ≡ [] }
    {
        Held {
            bytes: [0; ROOM],
            len: 0,
        }
    }

    // Whether so many bytes more fit.
    fn fits(&self, count: usize) -> bool
        ensures { IsTrue result ↔ (length self.now + count ≤ 4096) }
    {
        count <= ROOM - self.len
    }

    // Adds a piece that fits.
    fn push(&mut self, piece: &[u8])
        requires { length self.old + length piece.now ≤ 4096 }
        ensures { self.new ≡ self.old ++ piece.now }
    {
        let end = self.len + piece.len();
        self.bytes[self.len..end].copy_from_slice(piece);
        self.len = end;
    }

    // What is held.
    fn as_slice(&self) -> &[u8]
        ensures { result.now ≡ self.now }
    {
        &self.bytes[..self.len]
    }

    /// Adds a piece, and puts what no longer fits into the sink.
    pub fn put<K: Sink>(&mut self, piece: &[u8], out: &mut K) -> Result<(), SinkFailed>
        ensures { PutsHeldText K.tells K.faults K.appended out.old self.old out.new self.new
            piece.now result }
    {
        if self.fits(piece.len()) {
            self.push(piece);
            Ok(())
        } else {
            self.put_past(piece, out)
        }
    }

    // Puts what is held, and then holds the piece, or puts it too where it never fits.
    fn put_past<K: Sink>(&mut self, piece: &[u8], out: &mut K) -> Result<(), SinkFailed>
        ensures { PutsHeldText K.tells K.faults K.appended out.old self.old out.new self.new
            piece.now result }
    {
        self.send(out)?;
        if self.fits(piece.len()) {
            self.push(piece);
            Ok(())
        } else {
            put_all(piece, out)
        }
    }

    /// Puts all that is held into the sink.
    pub fn send<K: Sink>(&mut self, out: &mut K) -> Result<(), SinkFailed>
        ensures text { PutsHeldText K.tells K.faults K.appended out.old self.old out.new self.new []
            result }
        ensures empty { OnOk result (self.new ≡ []) }
    {
        put_all(self.as_slice(), out)?;
        self.len = 0;
        Ok(())
    }
}

// Puts a whole piece into a sink that may take less at a time.
fn put_all<K: Sink>(piece: &[u8], out: &mut K) -> Result<(), SinkFailed>
    ensures { PutsHeldText K.tells K.faults K.appended out.old [] out.new [] piece.now result }
{
    let mut count = 0;
    while count < piece.len() {
        count += out.put(&piece[count..])?;
    }
    Ok(())
}
