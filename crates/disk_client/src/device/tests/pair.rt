//! Two hands at one device, each in a thread of its own.
ghost use Rattle.std.specs.Prelude.{◌≡◌, [], All, IfOk, vec_len};
ghost use Rattle.host_turn.specs.Seats.{AreNewSeats, IsSeatOutside, seat_book, book_id, opening_of};
ghost use Rattle.host_device.specs.Seen.{fixed_of, shape_of, steps_of};

use super::hand::Hand;
use host_device::Device;
use host_io::Disk;
use host_turn::{Book, BookSeat, NoBook};
use std::alloc::{AllocError, Global};
use std::sync::Wait;
use std::thread;
use std::thread::Threads;

/// Two hands work at the device for so many rounds.
pub fn run_pair<D: Disk + Drop + Send, R: Threads + Wait + Sync>(
    rt: &R,
    alloc: Global,
    device: Device<D>,
    rounds: u8,
) -> Result<Device<D>, AllocError>
    requires new { (steps_of device).items ≡ [] }
    requires blocks { (shape_of device).blocks ≡ 64 }
    requires size { (shape_of device).size ≡ 512 }
{
    let (book, seats) = match Book::new(alloc, device, 2) {
        Ok(made) => made,
        Err(NoBook { state: _ }) => return Err(AllocError),
    };
    let hands = hand_out_all(alloc, &book, seats)?;
    let seats = work_all(rt, alloc, &book, hands, rounds)?;
    Ok(book.close(seats))
}

fn hand_out_all<D: Disk + Drop>(
    alloc: Global,
    book: &Book<Device<D>>,
    mut seats: Vec<BookSeat<Device<D>>>,
) -> Result<Vec<Hand<D>>, AllocError>
    requires few { vec_len seats ≡ 2 }
    requires new { AreNewSeats (λ device. (steps_of device).items) fixed_of (book_id book.now)
        (opening_of book.now) seats.items }
    requires blocks { (shape_of (opening_of book.now)).blocks ≡ 64 }
    requires size { (shape_of (opening_of book.now)).size ≡ 512 }
    ensures { IfOk result (λ hands.
        (vec_len hands ≡ 2) × All (λ hand. seat_book hand.seat ≡ book_id book.now) hands.items) }
{
    let mut hands = Vec::with_capacity(alloc, 2)?;
    let second = book.hand_out(&mut seats);
    let first = book.hand_out(&mut seats);
    hands.push_reserved(Hand { seat: first, me: 0 });
    hands.push_reserved(Hand {
        seat: second,
        me: 1,
    });
    Ok(hands)
}

fn work_all<D: Disk + Drop + Send, R: Threads + Wait + Sync>(
    rt: &R,
    alloc: Global,
    book: &Book<Device<D>>,
    hands: Vec<Hand<D>>,
    rounds: u8,
) -> Result<Vec<BookSeat<Device<D>>>, AllocError>
    requires { All (λ hand. seat_book hand.seat ≡ book_id book.now) hands.items }
    ensures { IfOk result (λ seats.
        (vec_len seats ≡ vec_len hands) × All (λ q. IsSeatOutside book.now q) seats.items) }
{
    thread::map_vec(
        rt,
        hands,
        &|hand: Hand<D>| -> BookSeat<Device<D>>
            requires { seat_book hand.seat ≡ book_id book.now }
            ensures { IsSeatOutside book.entry.now result }
        { work(rt, alloc, book, hand, rounds) },
    )
}

fn work<D: Disk + Drop, R: Wait>(
    rt: &R,
    alloc: Global,
    book: &Book<Device<D>>,
    mut hand: Hand<D>,
    rounds: u8,
) -> BookSeat<Device<D>>
    requires { seat_book hand.seat ≡ book_id book.now }
    ensures { IsSeatOutside book.now result }
{
    hand.work(rt, alloc, book, rounds);
    hand.seat
}
