//! A state that holds a seat at another book.
ghost use Rattle.std.specs.Prelude.{◌≡◌, Some};
ghost use Rattle.host_log.specs.History.{Adds};
ghost use Rattle.host_turn.specs.Seats.{IsSeatOutside, IsSameSeat, IsOutside, seat_book, book_id};
ghost use Rattle.host_turn.specs.Seats.{number, fixed_part};

use crate::turn::diary::Diary;
use crate::turn::writer::write_at;
use host_turn::{Book, BookName, BookSeat, Story};
use std::alloc::AllocError;
use std::sync::Wait;

/// That someone called, and what was said.
#[derive(Debug, Drop, PartialEq)]
pub struct Call {
    pub caller: u32,
    pub said: u32,
}

/// Which diary a desk writes into, and under which number.
pub struct DeskFixed {
    pub author: u32,
    pub diary: BookName,
}

/// Calls, each of which is also written into a diary.
#[derive(Drop)]
pub struct Desk {
    pub calls: Vec<Call>,
    pub seat: BookSeat<Diary>,
    pub author: u32,
    ghost outside: { IsOutside seat },
    ghost author_is: { number seat ≡ author },
}

impl Story for Desk {
    type Entry = Call;

    type Fixed = DeskFixed;

    ghost story = { λ d. d.calls.items };

    ghost maker = { λ e. e.caller };

    ghost fixed = { λ d. record { author = d.author; diary = seat_book d.seat } };

    fn length(&self) -> u64 {
        self.calls.len() as u64
    }
}

impl Desk {
    /// Takes a call, and writes it into the diary under the diary's turn.
    pub fn call<R: Wait>(
        &mut self,
        rt: &R,
        diary: &Book<Diary>,
        caller: u32,
        said: u32,
    ) -> Result<(), AllocError>
        requires { seat_book self.old.seat ≡ book_id diary.now }
        ensures fixed { (self.new.author ≡ self.old.author)
            × (seat_book self.new.seat ≡ seat_book self.old.seat) }
        ensures adds { Adds (λ e. e.caller) caller self.old.calls.items self.new.calls.items }
    {
        self.calls.push(Call { caller, said })?;
        write_at(rt, diary, &mut self.seat, self.author, said)
    }
}

/// Enters the desk's book, and under its turn the diary's. That the desk's seat is of this diary is
/// known by the fixed part.
pub fn call_at<R: Wait>(
    rt: &R,
    desks: &Book<Desk>,
    seat: &mut BookSeat<Desk>,
    diary: &Book<Diary>,
    caller: u32,
    author: u32,
    said: u32,
) -> Result<(), AllocError>
    requires desk { IsSeatOutside desks.now seat.old × (number seat.old ≡ caller) }
    requires diary { fixed_part seat.old
        ≡ Some record { author = author; diary = book_id diary.now } }
    ensures { IsSameSeat seat.old seat.new × IsOutside seat.new }
{
    let mut desk = desks.enter(rt, seat);
    let done = desk.call(rt, diary, caller, said);
    desks.leave(seat, desk);
    done
}
