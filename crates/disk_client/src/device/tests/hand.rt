//! A type that holds a seat at a device.
ghost use Rattle.std.specs.Prelude.{◌≡◌, ◌<◌, length};
ghost use Rattle.std.specs.Option.{ForSome};
ghost use Rattle.host_turn.specs.Seats.{IsOutside, seat_book, book_id, number, fixed_part};
ghost use Rattle.host_device.specs.Entries.{IsOnDisk, IsPiece};

use super::under_turn::step_at;
use host_block::Op;
use host_device::{Device, StepError};
use host_io::Disk;
use host_turn::{Book, BookSeat};
use std::alloc::Global;
use std::sync::Wait;

/// A seat at a device of 64 blocks of 512 bytes, with its number.
#[derive(Drop)]
pub struct Hand<D: Disk> {
    pub seat: BookSeat<Device<D>>,
    pub me: u32,
    ghost outside: { IsOutside seat },
    ghost me_is: { number seat ≡ me },
    ghost blocks: { ForSome (fixed_part seat) (λ fixed. fixed.blocks ≡ 64) },
    ghost size: { ForSome (fixed_part seat) (λ fixed. fixed.size ≡ 512) },
}

impl<D: Disk> Hand<D> {
    /// Makes one step under the turn.
    pub fn step<R: Wait>(
        &mut self,
        rt: &R,
        alloc: Global,
        book: &Book<Device<D>>,
        op: Op,
        b: u64,
        bytes: &mut [u8],
    ) -> Result<(), StepError>
        requires book { seat_book self.old.seat ≡ book_id book.now }
        requires block { IsOnDisk op b 64 }
        requires piece { IsPiece op (length bytes.old) 512 }
        ensures { seat_book self.new.seat ≡ book_id book.entry.now }
    {
        step_at(rt, alloc, book, &mut self.seat, self.me, op, b, bytes)
    }

    // Writes a block that is made of one byte, and reads it back.
    fn write_and_read<R: Wait>(
        &mut self,
        rt: &R,
        alloc: Global,
        book: &Book<Device<D>>,
        b: u64,
        byte: u8,
    )
        requires book { seat_book self.old.seat ≡ book_id book.now }
        requires block { b < 64 }
        ensures { seat_book self.new.seat ≡ book_id book.entry.now }
    {
        let mut bytes = [byte; 512];
        let _ = self.step(rt, alloc, book, Op::Write, b, &mut bytes);
        let _ = self.step(rt, alloc, book, Op::Read, b, &mut bytes);
    }

    // Writes and reads each of eight blocks that no other hand has.
    fn round<R: Wait>(&mut self, rt: &R, alloc: Global, book: &Book<Device<D>>, byte: u8)
        requires { seat_book self.old.seat ≡ book_id book.now }
        ensures { seat_book self.new.seat ≡ book_id book.entry.now }
    {
        for b in 0..8u64 {
            self.write_and_read(rt, alloc, book, (self.me as u64 * 8 + b) % 64, byte);
        }
    }

    /// Makes so many rounds of steps on blocks of its own.
    pub fn work<R: Wait>(&mut self, rt: &R, alloc: Global, book: &Book<Device<D>>, rounds: u8)
        requires { seat_book self.old.seat ≡ book_id book.now }
        ensures { seat_book self.new.seat ≡ book_id book.entry.now }
    {
        for byte in 0..rounds {
            self.round(rt, alloc, book, byte);
        }
    }
}
