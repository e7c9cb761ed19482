ghost use Rattle.std.specs.Prelude.{◌≡◌, ◌+◌, OnOk, vec_len};

use crate::turn::{Call, Desk, Diary, Shelf, call_at, write_together};
use host_turn::{Book, NoBook, Story};
use std::alloc::{AllocError, Global};
use std::sync::Wait;
use std::test::*;

// How many notes of the author stand in the diary, where they have the numbers from 0 on, in order.
fn count_in_order(diary: &Diary, author: u32) -> Option<u32> {
    let mut next = 0u32;
    for note in &diary.notes {
        if note.author == author {
            if note.number != next {
                return None;
            }
            next = next.checked_add(1)?;
        }
    }
    Some(next)
}

#[test]
fn two_makers_one_history(rt: HostRuntime) -> Result<(), Fail> {
    let diary = write_together(&rt, rt.alloc(), 7, 2, 1000)?;
    assert_eq!(rt; diary.notes.len(), 2000);
    assert_eq!(rt; count_in_order(&diary, 0), Some(1000));
    assert_eq!(rt; count_in_order(&diary, 1), Some(1000));
    Ok(())
}

#[test]
fn no_entry_of_four_threads_is_lost(rt: HostRuntime) -> Result<(), Fail> {
    let diary = write_together(&rt, rt.alloc(), 7, 4, 10_000)?;
    assert_eq!(rt; diary.notes.len(), 40_000);
    for author in 0..4 {
        assert_eq!(rt; count_in_order(&diary, author), Some(10_000));
    }
    Ok(())
}

// What the first wrote, the second is told, and enters past that.
fn tell_and_enter<R: Wait>(rt: &R, alloc: Global) -> Result<u64, AllocError> {
    let (book, mut seats) = match Book::new(alloc, Diary::new(alloc, 7), 2) {
        Ok(made) => made,
        Err(NoBook { state: _ }) => return Err(AllocError),
    };
    let mut second = book.hand_out(&mut seats);
    let mut first = book.hand_out(&mut seats);
    let mut diary = book.enter(rt, &mut first);
    let done = diary.write(0, 5);
    book.leave(&mut first, diary);
    done?;
    book.meet(&mut first, &mut second);
    let diary = book.enter_past(rt, &mut second, 1);
    let length = diary.length();
    book.leave(&mut second, diary);
    Ok(length)
}

#[test]
fn front_already_seen(rt: HostRuntime) -> Result<(), Fail> {
    assert_eq!(rt; tell_and_enter(&rt, rt.alloc())?, 1);
    Ok(())
}

// Puts a new book with one seat on the shelf.
fn add_book(alloc: Global, shelf: &mut Shelf, topic: u32) -> Result<(), AllocError>
    requires { shelf.old.author ≡ 0 }
    ensures author { shelf.new.author ≡ 0 }
    ensures count { OnOk result (vec_len shelf.new.books ≡ vec_len shelf.old.books + 1) }
{
    let (book, mut seats) = match Book::new(alloc, Diary::new(alloc, topic), 1) {
        Ok(made) => made,
        Err(NoBook { state: _ }) => return Err(AllocError),
    };
    let seat = book.hand_out(&mut seats);
    shelf.push(book, seat)
}

fn fill_shelf<R: Wait>(rt: &R, alloc: Global) -> Result<(), AllocError> {
    let mut shelf = Shelf::new(alloc, 0);
    add_book(alloc, &mut shelf, 7)?;
    add_book(alloc, &mut shelf, 8)?;
    shelf.write(rt, 1, 5)?;
    shelf.write(rt, 0, 6)
}

#[test]
fn many_books_at_once(rt: HostRuntime) -> Result<(), Fail> {
    fill_shelf(&rt, rt.alloc())?;
    Ok(())
}

// A call at a desk, whose own seat writes it into the diary.
fn call_once<R: Wait>(rt: &R, alloc: Global) -> Result<Desk, AllocError> {
    let (diary, mut seats) = match Book::new(alloc, Diary::new(alloc, 7), 1) {
        Ok(made) => made,
        Err(NoBook { state: _ }) => return Err(AllocError),
    };
    let desk = Desk {
        calls: Vec::new(alloc),
        seat: diary.hand_out(&mut seats),
        author: 0,
    };
    let (desks, mut seats) = match Book::new(alloc, desk, 1) {
        Ok(made) => made,
        Err(NoBook { state: _ }) => return Err(AllocError),
    };
    let mut caller = desks.hand_out(&mut seats);
    call_at(rt, &desks, &mut caller, &diary, 0, 0, 9)?;
    seats.push_reserved(caller);
    Ok(desks.close(seats))
}

#[test]
fn a_turn_under_a_turn(rt: HostRuntime) -> Result<(), Fail> {
    let desk = call_once(&rt, rt.alloc())?;
    assert!(rt; desk.calls.as_slice() == [Call { caller: 0, said: 9 }].as_slice());
    Ok(())
}
