//! Many books at once, with a seat at each.
ghost use Rattle.std.specs.Prelude.{◌≡◌, ◌+◌, ◌<◌, ◌∷◌, [], ◌++◌, Some, map, OnOk, vec_len};
ghost use Rattle.std.specs.Prelude.{slice_get};
ghost use Rattle.crossbeam_utils.specs.Padded.{padded_value};
ghost use Rattle.host_turn.specs.Seats.{IsSeatOutside, AreSeatsAt, book_id, number, own_entries};

use crate::turn::diary::Diary;
use crate::turn::writer::write_at;
use crossbeam_utils::CachePadded;
use host_turn::{Book, BookSeat};
use std::alloc::{AllocError, Global};
use std::sync::Wait;

/// Books, each in cache lines of its own, and at each a seat with the number `author`.
#[derive(Drop)]
pub struct Shelf {
    pub author: u32,
    pub books: Vec<CachePadded<Book<Diary>>>,
    pub seats: Vec<BookSeat<Diary>>,
    ghost full: { vec_len seats ≡ vec_len books },
    ghost matching: { AreSeatsAt (map (λ b. book_id (padded_value b)) books.items) author
        seats.items },
}

impl Shelf {
    /// A shelf with no books.
    pub fn new(alloc: Global, author: u32) -> Shelf
        ensures { (result.author ≡ author) × (vec_len result.books ≡ 0) }
    {
        Shelf {
            author,
            books: Vec::new(alloc),
            seats: Vec::new(alloc),
        }
    }

    /// Puts a book with its seat at the end. For want of memory both are dropped.
    pub fn push(&mut self, book: Book<Diary>, seat: BookSeat<Diary>) -> Result<(), AllocError>
        requires { IsSeatOutside book seat × (number seat ≡ self.old.author) }
        ensures count { OnOk result (vec_len self.new.books ≡ vec_len self.old.books + 1) }
        ensures author { self.new.author ≡ self.old.author }
    {
        self.books.try_reserve(1)?;
        self.seats.try_reserve(1)?;
        self.books.push_reserved(CachePadded::new(book));
        self.seats.push_reserved(seat);
        Ok(())
    }

    /// Writes a number into the k-th book.
    pub fn write<R: Wait>(&mut self, rt: &R, k: usize, n: u32) -> Result<(), AllocError>
        requires { k < vec_len self.old.books }
        ensures count { vec_len self.new.books ≡ vec_len self.old.books }
        ensures author { self.new.author ≡ self.old.author }
        ensures own { OnOk result ((p : _) (q : _) → slice_get self.old.seats.items k ≡ Some p
            → slice_get self.new.seats.items k ≡ Some q
            → own_entries (λ e. e.author) q
            ≡ own_entries (λ e. e.author) p ++ record { author = self.old.author; number = n }
            ∷ []) }
    {
        let book: &Book<Diary> = &self.books[k];
        write_at(rt, book, &mut self.seats[k], self.author, n)
    }
}
