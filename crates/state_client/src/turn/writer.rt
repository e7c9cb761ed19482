//! A type that holds a seat.
ghost use Rattle.std.specs.Prelude.{◌≡◌, ◌∷◌, [], ◌++◌, MatchResult};
ghost use Rattle.host_turn.specs.Seats.{IsSeatOutside, IsOutside, IsSameSeat, seat_book, book_id};
ghost use Rattle.host_turn.specs.Seats.{number, own_entries};

use crate::turn::diary::Diary;
use host_turn::{Book, BookSeat};
use std::alloc::AllocError;
use std::sync::Wait;

/// A seat at a diary, with its number.
#[derive(Drop)]
pub struct Writer {
    pub seat: BookSeat<Diary>,
    pub author: u32,
    ghost outside: { IsOutside seat },
    ghost author_is: { number seat ≡ author },
}

impl Writer {
    /// Writes a number, which becomes the last of the writer's own notes.
    pub fn write<R: Wait>(&mut self, rt: &R, book: &Book<Diary>, n: u32) -> Result<(), AllocError>
        requires { seat_book self.old.seat ≡ book_id book.now }
        ensures book { seat_book self.new.seat ≡ book_id book.entry.now }
        ensures author { self.new.author ≡ self.old.author }
        ensures own { MatchResult result (λ _.
            own_entries (λ e. e.author) self.new.seat
            ≡ own_entries (λ e. e.author) self.old.seat
            ++ record { author = self.old.author; number = n } ∷ []) (λ _.
            own_entries (λ e. e.author) self.new.seat ≡ own_entries (λ e. e.author) self.old.seat) }
    {
        write_at(rt, book, &mut self.seat, self.author, n)
    }
}

/// Enters the book, writes a number, and leaves.
pub fn write_at<R: Wait>(
    rt: &R,
    book: &Book<Diary>,
    seat: &mut BookSeat<Diary>,
    author: u32,
    n: u32,
) -> Result<(), AllocError>
    requires { IsSeatOutside book.now seat.old × (number seat.old ≡ author) }
    ensures seat { IsSameSeat seat.old seat.new × IsOutside seat.new }
    ensures own { MatchResult result
        (λ _. own_entries (λ e. e.author) seat.new
        ≡ own_entries (λ e. e.author) seat.old ++ record { author = author; number = n } ∷ [])
        (λ _. own_entries (λ e. e.author) seat.new ≡ own_entries (λ e. e.author) seat.old) }
{
    let mut diary = book.enter(rt, seat);
    let done = diary.write(author, n);
    book.leave(seat, diary);
    done
}
