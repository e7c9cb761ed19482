//! A book from its making to its close: each seat is handed to a thread of its own.
ghost use Rattle.std.specs.Prelude.{◌≡◌, ℕ, ◌<◌, ◌≤◌, ◌^◌, [], All, IfOk, vec_len};
ghost use Rattle.host_log.specs.History.{entries_of};
ghost use Rattle.host_turn.specs.Seats.{AreNewSeats, IsSeatOutside, seat_book, book_id, opening_of};

use crate::turn::diary::Diary;
use crate::turn::writer::Writer;
use host_turn::{Book, BookSeat, NoBook};
use std::alloc::{AllocError, Global};
use std::sync::Wait;
use std::thread;
use std::thread::Threads;

/// Each of the writers writes the numbers below `count`, in a thread of its own. A writer that gets
/// no memory stops.
///
/// For want of memory before or after that the book is dropped with its diary.
pub fn write_together<R: Threads + Wait + Sync>(
    rt: &R,
    alloc: Global,
    topic: u32,
    writers: u32,
    count: u32,
) -> Result<Diary, AllocError>
    requires { 0 < writers }
    ensures topic { IfOk result (λ d. d.topic ≡ topic) }
    ensures others { IfOk result
        (λ d. (n : ℕ) → writers ≤ n → entries_of (λ e. e.author) n d.notes.items ≡ []) }
{
    let (book, seats) = match Book::new(alloc, Diary::new(alloc, topic), writers) {
        Ok(made) => made,
        Err(NoBook { state: _ }) => return Err(AllocError),
    };
    let crew = hand_out_all(alloc, &book, seats)?;
    let seats = run_all(rt, &book, crew, count)?;
    Ok(book.close(seats))
}

fn hand_out_all(
    alloc: Global,
    book: &Book<Diary>,
    mut seats: Vec<BookSeat<Diary>>,
) -> Result<Vec<Writer>, AllocError>
    requires few { vec_len seats < 2 ^ 32 }
    requires new { AreNewSeats (λ d. d.notes.items) (λ d. d.topic) (book_id book.now)
        (opening_of book.now) seats.items }
    ensures { IfOk result (λ crew. (vec_len crew ≡ vec_len seats)
        × All (λ w. seat_book w.seat ≡ book_id book.now) crew.items) }
{
    let mut crew = Vec::with_capacity(alloc, seats.len())?;
    while !seats.is_empty() {
        let seat = book.hand_out(&mut seats);
        let author = seats.len() as u32;
        crew.push_reserved(Writer { seat, author });
    }
    Ok(crew)
}

fn run_all<R: Threads + Wait + Sync>(
    rt: &R,
    book: &Book<Diary>,
    crew: Vec<Writer>,
    count: u32,
) -> Result<Vec<BookSeat<Diary>>, AllocError>
    requires { All (λ w. seat_book w.seat ≡ book_id book.now) crew.items }
    ensures { IfOk result (λ seats. (vec_len seats ≡ vec_len crew)
        × All (λ q. IsSeatOutside book.now q) seats.items) }
{
    thread::map_vec(
        rt,
        crew,
        &|writer: Writer| -> BookSeat<Diary>
            requires { seat_book writer.seat ≡ book_id book.now }
            ensures { IsSeatOutside book.entry.now result }
        { write_all(rt, book, writer, count) },
    )
}

fn write_all<R: Wait>(rt: &R, book: &Book<Diary>, mut writer: Writer, count: u32) -> BookSeat<Diary>
    requires { seat_book writer.seat ≡ book_id book.now }
    ensures { IsSeatOutside book.now result }
{
    for n in 0..count {
        if writer.write(rt, book, n).is_err() {
            break;
        }
    }
    writer.seat
}
