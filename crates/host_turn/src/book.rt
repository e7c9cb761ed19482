//! The book: a state behind a ticket lock.
ghost use Rattle.std.specs.Prelude.{◌≡◌, ◌≢◌, ◌⊎◌, ℕ, ◌+◌, ◌<◌, ◌≤◌, Some, [], ◌∷◌, ◌++◌, map};
ghost use Rattle.std.specs.Prelude.{drop, length, All, IfOk, IfErr, MatchOption, vec_len};
ghost use Rattle.std.specs.Prelude.{vec_capacity};
ghost use mathlib.Core.List.{IsPrefix};
ghost use Rattle.host_log.specs.History.{entries_of, Adds, Continues, longer};

use crate::rule::{Opening, TurnRule};
use crate::seat::BookSeat;
use crate::steps::{DrawTicket, GatherSeat, MakeSeat, MergeTold, PassTurn, TakeTurn, TellSeen};
use crate::story::Story;
use crate::view::View;
use atomic_table::{Refused, Seat, Table};
use std::alloc::{AllocFailed, Global};
use std::snapshot::Snapshot;
use std::sync::Wait;
use std::time::Duration;
use std::{hint, thread};

// Indexes of the words. Both count modulo 2^64.
const NEXT: usize = 0;

const SERVING: usize = 1;

// How often a seat looks before it pauses, how often it does both before it draws a ticket, and how
// many of the first pauses only let other threads run, where later ones sleep.
const LOOKS: u32 = 100;

const PAUSES: u32 = 1000;

const SHORT_PAUSES: u32 = 2;

// How many microseconds a sleep takes.
const NAP: u64 = 50;

/// A state behind a ticket lock. Its seats take turns, and whoever has the turn has the state.
///
/// A book may be shared by threads where its state may be sent. Where the state may be dropped, so
/// may the book.
#[derive(Drop)]
pub struct Book<S: Story> {
    pub(crate) table: Table<Option<S>, View<S::Entry, S::Fixed>, Opening<S>, TurnRule<S>, Global>,
    ghost sized: { (table.shared.table_id.words ≡ 2) × (table.shared.table_id.slots ≡ 1) },
}

/// There was no memory. The state comes back.
#[derive(Drop)]
pub struct NoBook<S> {
    pub state: S,
}

impl<S: Story> Book<S> {
    ghost use Rattle.host_turn.specs.Seats.{IsMaker, IsSeatOf, IsOutside, IsWaiting, IsInside};
    ghost use Rattle.host_turn.specs.Seats.{IsSameSeat, IsSeatOutside, IsNewSeat, AreNewSeats};
    ghost use Rattle.host_turn.specs.Seats.{IsNote, HasGathered, IsSeenBySome, member_of, number};
    ghost use Rattle.host_turn.specs.Seats.{seen_by, told_by, fixed_part, fixed_part_of};
    ghost use Rattle.host_turn.specs.Seats.{own_entries, book_id, opening_of, seat_count};

    /// A book with its seats, numbered from 0 by their places. It has `NoBook` for an answer only
    /// for want of memory.
    pub fn new(
        alloc: Global,
        state: S,
        seats: u32,
    ) -> Result<(Book<S>, Vec<BookSeat<S>>), NoBook<S>>
        requires some { 0 < seats }
        requires fresh { (n : ℕ) → n < seats → entries_of S.maker n (S.story state) ≡ [] }
        ensures book { IfOk result (λ r. (seat_count r.0 ≡ seats) × (opening_of r.0 ≡ state)) }
        ensures seats { IfOk result (λ r. (vec_len r.1 ≡ seats)
            × AreNewSeats S.story S.fixed (book_id r.0) state r.1.items) }
        ensures none { IfErr result (λ e. e.state ≡ state) }
    {
        let Ok(mut all) = Vec::with_capacity(alloc, seats as usize) else {
            return Err(NoBook { state });
        };
        let about = Opening {
            state: Snapshot::of(&state),
            seats,
        };
        let mut slots = Vec::new(alloc);
        if let Err(AllocFailed { value }) = slots.push(Some(state)) {
            slots.destroy_empty();
            return Err(NoBook {
                state: value.unwrap(),
            });
        }
        match Table::new(alloc, &[0, 0], slots, &about) {
            Ok((table, mut maker)) => {
                let book = Book { table };
                book.make_seats(&mut maker, seats, &mut all);
                Ok((book, all))
            }
            Err(Refused { mut slots }) => {
                let state = slots.pop().unwrap().unwrap();
                slots.destroy_empty();
                Err(NoBook { state })
            }
        }
    }

    fn make_seats(
        &self,
        maker: &mut Seat<Option<S>, View<S::Entry, S::Fixed>>,
        seats: u32,
        all: &mut Vec<BookSeat<S>>,
    )
        requires maker { IsMaker S.story S.fixed self.now seats 0 maker.old }
        requires room { (all.old.items ≡ []) × (seats ≤ vec_capacity all.old) }
        ensures count { vec_len all.new ≡ seats }
        ensures seats { AreNewSeats S.story S.fixed (book_id self.now) (opening_of self.now)
            all.new.items }
    {
        for _ in 0..seats {
            let seat = self.table.shared.split_seat::<MakeSeat>(maker);
            all.push_reserved(BookSeat { seat });
        }
    }

    /// Takes the last of the seats that `new` made, the one with the greatest number.
    pub fn hand_out(&self, seats: &mut Vec<BookSeat<S>>) -> BookSeat<S>
        requires { (0 < vec_len seats.old)
            × AreNewSeats S.story S.fixed (book_id self.now) (opening_of self.now) seats.old.items }
        ensures seat { IsNewSeat S.story S.fixed (book_id self.now) (opening_of self.now)
            (vec_len seats.new) result }
        ensures left { AreNewSeats S.story S.fixed (book_id self.now) (opening_of self.now)
            seats.new.items }
        ensures count { (vec_len seats.old ≡ vec_len seats.new + 1)
            × (vec_capacity seats.new ≡ vec_capacity seats.old) }
    {
        seats.pop().unwrap()
    }

    /// Waits for the turn, and takes the state. Its history goes on from what the seat has seen,
    /// and the entries under the seat's number are those that the seat left.
    pub fn enter<R: Wait>(&self, rt: &R, seat: &mut BookSeat<S>) -> S
        requires { IsSeatOf self.now seat.old × IsOutside seat.old }
        ensures seat { IsSameSeat seat.old seat.new × IsInside seat.new }
        ensures story { S.story result ≡ seen_by seat.new }
        ensures later { Continues S.maker (number seat.old) (seen_by seat.old) (seen_by seat.new) }
        ensures fixed_part { fixed_part seat.new ≡ Some (S.fixed result) }
    {
        self.wait_for_quiet(rt);
        let ticket = self.draw_ticket(seat);
        for _ in rt.forever() {
            if let Some(state) = self.try_often(seat, ticket) {
                return state;
            }
            thread::yield_now();
        }
        unreachable!()
    }

    /// The same, until a history of n entries or more is found: the turn is given up and taken anew
    /// as often as that takes.
    pub fn enter_past<R: Wait>(&self, rt: &R, seat: &mut BookSeat<S>, n: u64) -> S
        requires { IsSeatOf self.now seat.old × IsOutside seat.old }
        ensures seat { IsSameSeat seat.old seat.new × IsInside seat.new }
        ensures story { S.story result ≡ seen_by seat.new }
        ensures later { Continues S.maker (number seat.old) (seen_by seat.old) (seen_by seat.new) }
        ensures fixed_part { fixed_part seat.new ≡ Some (S.fixed result) }
        ensures past { n ≤ length (S.story result) }
    {
        for _ in rt.forever() {
            let state = self.enter(rt, seat);
            if state.length() >= n {
                return state;
            }
            self.leave(seat, state);
            thread::yield_now();
        }
        unreachable!()
    }

    // Waits until no ticket is out, but not for long. The turn goes to tickets in their order, and
    // stands still while the thread whose ticket is served doesn't run, so as few as may be are
    // drawn ahead.
    fn wait_for_quiet<R: Wait>(&self, rt: &R) {
        for pause in 0..PAUSES {
            if self.is_quiet() {
                return;
            }
            if pause < SHORT_PAUSES {
                thread::yield_now();
            } else {
                self.nap(rt);
            }
        }
    }

    // Sleeps for a moment, unless the turn was passed on just before. It leaves the processor to
    // the thread that has the turn.
    fn nap<R: Wait>(&self, rt: &R) {
        let shared = &self.table.shared;
        let served = (shared.peek(SERVING) & 0xffff_ffff) as u32;
        shared.park_timeout(rt, SERVING, served, Duration::from_micros(NAP));
    }

    // Whether a look found no ticket that is out. It tells nothing for certain: another seat may
    // draw one in between.
    fn is_quiet(&self) -> bool {
        let shared = &self.table.shared;
        for _ in 0..LOOKS {
            if shared.peek(NEXT) == shared.peek(SERVING) {
                return true;
            }
            hint::spin_loop();
        }
        false
    }

    fn draw_ticket(&self, seat: &mut BookSeat<S>) -> u64
        requires { IsSeatOf self.now seat.old × IsOutside seat.old }
        ensures { IsSameSeat seat.old seat.new × IsWaiting result seat.new
            × (seen_by seat.new ≡ seen_by seat.old) }
    {
        let shared = &self.table.shared;
        shared.fetch_add::<DrawTicket<S>>(&mut seat.seat, NEXT, 1)
    }

    // The state, where one of some looks finds the ticket served.
    fn try_often(&self, seat: &mut BookSeat<S>, ticket: u64) -> Option<S>
        requires { IsSeatOf self.now seat.old × IsWaiting ticket seat.old }
        ensures same { IsSameSeat seat.old seat.new }
        ensures state { MatchOption result
            (IsWaiting ticket seat.new × (seen_by seat.new ≡ seen_by seat.old))
            (λ x. IsInside seat.new × (S.story x ≡ seen_by seat.new)
            × Continues S.maker (number seat.old) (seen_by seat.old) (seen_by seat.new)
            × (fixed_part seat.new ≡ Some (S.fixed x))) }
    {
        for _ in 0..LOOKS {
            if let Some(state) = self.try_turn(seat, ticket) {
                return Some(state);
            }
            hint::spin_loop();
        }
        None
    }

    // The state, where the ticket is served.
    fn try_turn(&self, seat: &mut BookSeat<S>, ticket: u64) -> Option<S>
        requires { IsSeatOf self.now seat.old × IsWaiting ticket seat.old }
        ensures same { IsSameSeat seat.old seat.new }
        ensures state { MatchOption result
            (IsWaiting ticket seat.new × (seen_by seat.new ≡ seen_by seat.old))
            (λ x. IsInside seat.new × (S.story x ≡ seen_by seat.new)
            × Continues S.maker (number seat.old) (seen_by seat.old) (seen_by seat.new)
            × (fixed_part seat.new ≡ Some (S.fixed x))) }
    {
        let shared = &self.table.shared;
        if shared.load::<TakeTurn<S>>(&mut seat.seat, SERVING) == ticket {
            shared.exchange(&mut seat.seat, 0, None)
        } else {
            None
        }
    }

    /// Hands the state back, and the turn on. The history may have grown by entries with the seat's
    /// number, which become the last of its own.
    pub fn leave(&self, seat: &mut BookSeat<S>, state: S)
        requires seat { IsSeatOf self.now seat.old × IsInside seat.old }
        requires story { Adds S.maker (number seat.old) (seen_by seat.old) (S.story state) }
        requires fixed_part { fixed_part seat.old ≡ Some (S.fixed state) }
        ensures seat { IsSameSeat seat.old seat.new × IsOutside seat.new }
        ensures story { seen_by seat.new ≡ S.story state }
        ensures own { own_entries S.maker seat.new
            ≡ own_entries S.maker seat.old ++ drop (length (seen_by seat.old)) (S.story state) }
    {
        let shared = &self.table.shared;
        let nothing = shared.exchange(&mut seat.seat, 0, Some(state));
        let None = nothing else { unreachable!() };
        shared.fetch_add::<PassTurn<S>>(&mut seat.seat, SERVING, 1);
    }

    /// Tells `to` what `from` has seen. Afterwards `to` has seen the longer of both, each of which
    /// begins it. It waits for nobody.
    pub fn meet(&self, from: &mut BookSeat<S>, to: &mut BookSeat<S>)
        requires from { IsSeatOf self.now from.old × IsOutside from.old }
        requires to { IsSeatOf self.now to.old × IsOutside to.old }
        ensures from { IsSameSeat from.old from.new × IsOutside from.new
            × (seen_by from.new ≡ seen_by from.old) }
        ensures to { IsSameSeat to.old to.new × IsOutside to.new }
        ensures told { IsPrefix (seen_by from.old) (seen_by to.new) }
        ensures later { Continues S.maker (number to.old) (seen_by to.old) (seen_by to.new) }
        ensures seen { seen_by to.new ≡ longer (seen_by to.old) (seen_by from.old) }
        ensures fixed_part { fixed_part from.old ≡ fixed_part to.old }
    {
        let note = self.write_note(from);
        self.take_note(to, note);
    }

    // A note of what the seat has seen.
    fn write_note(&self, from: &mut BookSeat<S>) -> Seat<Option<S>, View<S::Entry, S::Fixed>>
        requires { IsSeatOf self.now from.old × IsOutside from.old }
        ensures from { IsSameSeat from.old from.new × IsOutside from.new
            × (seen_by from.new ≡ seen_by from.old) }
        ensures note { IsNote (book_id self.now) result × (told_by result ≡ seen_by from.old)
            × (fixed_part_of result ≡ fixed_part from.old) }
    {
        let shared = &self.table.shared;
        shared.split_seat::<TellSeen>(&mut from.seat)
    }

    // The seat takes a note in, and has then seen the longer of what it had seen and what the note
    // tells.
    fn take_note(&self, to: &mut BookSeat<S>, note: Seat<Option<S>, View<S::Entry, S::Fixed>>)
        requires to { IsSeatOf self.now to.old × IsOutside to.old }
        requires note { IsNote (book_id self.now) note }
        ensures to { IsSameSeat to.old to.new × IsOutside to.new }
        ensures told { IsPrefix (told_by note) (seen_by to.new) }
        ensures later { Continues S.maker (number to.old) (seen_by to.old) (seen_by to.new) }
        ensures seen { seen_by to.new ≡ longer (seen_by to.old) (told_by note) }
        ensures fixed_part { fixed_part_of note ≡ fixed_part to.old }
    {
        let shared = &self.table.shared;
        shared.join_seat::<TellSeen>(&mut to.seat, note);
        shared.load::<MergeTold<S>>(&mut to.seat, SERVING);
    }

    /// Ends the turns, and gives the state with the one history. Every seat has seen a beginning of
    /// it, and each seat's entries in it are the seat's own, each once and in order.
    pub fn close(self, mut seats: Vec<BookSeat<S>>) -> S
        requires all { (vec_len seats ≡ seat_count self) × (0 < vec_len seats) }
        requires outside { All (λ q. IsSeatOutside self q) seats.items }
        ensures seats { All (λ q. Continues S.maker (number q) (seen_by q) (S.story result))
            seats.items }
        ensures others { (n : ℕ) → All (λ q. number q ≢ n) seats.items
            → entries_of S.maker n (S.story result)
            ≡ entries_of S.maker n (S.story (opening_of self)) }
        ensures numbers { All (λ q. number q < seat_count self) seats.items }
        ensures whole { (S.story result ≡ S.story (opening_of self))
            ⊎ IsSeenBySome seats.items (S.story result) }
        ensures fixed_part { S.fixed result ≡ S.fixed (opening_of self) }
    {
        let mut base = seats.pop().unwrap();
        self.gather_seats(&mut base, seats);
        let Book { table } = self;
        let mut closed = table.close_with(base.seat);
        let slot = closed.take(0);
        closed.free();
        slot.unwrap()
    }

    fn gather_seats(&self, base: &mut BookSeat<S>, mut seats: Vec<BookSeat<S>>)
        requires base { IsSeatOutside self.now base.old }
        requires seats { All (λ q. IsSeatOutside self.now q) seats.items }
        ensures { HasGathered self.now base.new (vec_len seats + 1)
            (map member_of seats.items ++ member_of base.old ∷ []) }
    {
        while let Some(BookSeat { seat }) = seats.pop() {
            self.table
                .shared
                .join_seat::<GatherSeat>(&mut base.seat, seat);
        }
    }
}
