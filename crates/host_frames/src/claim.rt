//! A claim goes over the words of claim bits once.
ghost use Rattle.std.specs.Prelude.{◌≡◌, ◌⊎◌, ℕ, ◌+◌, ◌-◌, ◌*◌, ◌/◌, ◌<◌, ◌≤◌, ◌↔◌, [], ◌∷◌};
ghost use Rattle.std.specs.Prelude.{length, replicate, IsTrue, MatchResult, vec_len, vec_capacity};
ghost use Rattle.std.specs.Prelude.{All};
ghost use Rattle.host_frames.specs.declared.view.Claim.{Claim};
ghost use Rattle.host_frames.specs.declared.view.View.{View};
ghost use Rattle.host_frames.specs.Sums.{frames_in};
ghost use Rattle.host_log.specs.Sums.{occurrences};
ghost use Rattle.host_frames.specs.Claims.{times_met, Covers, IsClaimRefused};
ghost use Rattle.host_frames.specs.Views.{settled_view, fetching_view, yielded_view};
ghost use Rattle.host_frames.specs.Homes.{IsBlankPage};
ghost use Rattle.host_frames.specs.Badges.{IsInWords, frames_of_pages};
ghost use Rattle.host_frames.specs.Moments.{IsIdle, IsNextToFetch, IsFetching, HasPutPage};
ghost use Rattle.host_frames.specs.Moments.{IsMaskBelow, IsPick, HasClaimed, HasGoneOn, HasMetWord};
ghost use Rattle.host_frames.specs.Moments.{HasBlankPages, fetched_view, refusing_view};
ghost use Rattle.host_frames.specs.Seats.{pool_id, seat_pool, pages_pool, page_size, frame_count};
ghost use Rattle.host_frames.specs.Seats.{contents, room, claims, granted, given_back};

use crate::no_frames::NoFrames;
use crate::page::Page;
use crate::pages::Pages;
use crate::pool::Pool;
use crate::seat::PoolSeat;
use crate::steps::{BeginClaim, FetchPage, GiveUp, LeaveSlot, LookAtWord, PackPages, WinFrames};
use crate::view::View;
use atomic_table::{Badge, Seat};

impl Pool {
    /// Takes n frames, whose pages are blank. Where too few are free it gives back what it got. It
    /// waits for nobody and takes no memory.
    pub fn claim(&self, seat: &mut PoolSeat, n: u32, into: &mut Pages) -> Result<(), NoFrames>
        requires pool { seat_pool seat.old ≡ pool_id self.now }
        requires room { (contents into.old ≡ []) × (n ≤ room into.old) }
        ensures seat { (seat_pool seat.new ≡ seat_pool seat.old)
            × (given_back seat.new ≡ given_back seat.old) × (room into.new ≡ room into.old) }
        ensures claim { (c : Claim) × (claims seat.new ≡ c ∷ claims seat.old) × (c.asked ≡ n)
            × MatchResult result (λ _. length c.won ≡ n)
            (λ _. IsClaimRefused (frame_count self.now) c) }
        ensures granted { MatchResult result (λ _. granted seat.new ≡ granted seat.old + n)
            (λ _. granted seat.new ≡ granted seat.old) }
        ensures pages { MatchResult result (λ _.
            (contents into.new ≡ replicate n (replicate (page_size self.now) 0))
            × (pages_pool into.new ≡ pool_id self.now)) (λ _. contents into.new ≡ []) }
    {
        self.win_frames(&mut seat.seat, n, &mut into.all);
        if is_short(&into.all, n) {
            self.give_up(&mut seat.seat, &mut into.all);
            into.badge = Badge::blank();
            Err(NoFrames)
        } else {
            let packed = self.table.shared.split_seat::<PackPages>(&mut seat.seat);
            into.badge = packed.into_badge();
            Ok(())
        }
    }

    // The claim, up to its end.
    fn win_frames(&self, seat: &mut Seat<Option<Vec<u8>>, View>, n: u32, pages: &mut Vec<Page>)
        requires table { seat.old.table_id ≡ self.now.table.shared.table_id }
        requires seat { IsIdle seat.old.me }
        requires pages { (pages.old.items ≡ []) × (n ≤ vec_capacity pages.old) }
        ensures same { (seat.new.table_id ≡ seat.old.table_id) × (seat.new.id ≡ seat.old.id)
            × (vec_capacity pages.new ≡ vec_capacity pages.old) }
        ensures in_words { All (IsInWords self.now.table.shared.table_id.words) pages.new.items }
        ensures claim { (c : Claim) × HasClaimed n seat.old.me.0 c seat.new.me pages.new.items
            × ((length pages.new.items ≡ n) ⊎ Covers self.now.frames c) }
    {
        let shared = &self.table.shared;
        shared.compare_exchange::<BeginClaim>(seat, 0, n as u64, n as u64);
        for word in 0..self.frames.div_ceil(64) {
            if pages.len() == n as usize {
                return;
            }
            self.win_word(seat, word, n, pages);
        }
    }

    // The claim at one word: it goes on until it has n pages, or no bit is clear that it hasn't
    // tried.
    fn win_word(
        &self,
        seat: &mut Seat<Option<Vec<u8>>, View>,
        word: u32,
        n: u32,
        pages: &mut Vec<Page>,
    )
        requires table { seat.old.table_id ≡ self.now.table.shared.table_id }
        requires word { 64 * word < self.now.frames }
        requires in_words { All (IsInWords self.now.table.shared.table_id.words) pages.old.items }
        requires room { n ≤ vec_capacity pages.old }
        requires claim { (v : View) × (c : Claim) × HasClaimed n v c seat.old.me pages.old.items }
        ensures same { (seat.new.table_id ≡ seat.old.table_id) × (seat.new.id ≡ seat.old.id)
            × (vec_capacity pages.new ≡ vec_capacity pages.old) }
        ensures in_words { All (IsInWords self.now.table.shared.table_id.words) pages.new.items }
        ensures claim { (v : View) (c : Claim) → HasClaimed n v c seat.old.me pages.old.items →
            (d : Claim) × HasClaimed n v d seat.new.me pages.new.items × HasGoneOn c d
            × ((length pages.new.items ≡ n) ⊎ HasMetWord self.now.frames word d) }
    {
        let shared = &self.table.shared;
        let found = shared.load::<LookAtWord>(seat, word as usize);
        if found == u64::MAX {
            return;
        }
        let limit = (self.frames - 64 * word).min(64);
        let mut from = 0;
        while from < limit && pages.len() < n as usize {
            let (mask, end) = pick(found, from, limit, n - pages.len() as u32);
            self.win_bits(seat, word, mask, pages);
            from = end;
        }
    }

    // The claim sets the bits of a mask, all at once, and fetches the pages of the frames that it
    // wins.
    fn win_bits(
        &self,
        seat: &mut Seat<Option<Vec<u8>>, View>,
        word: u32,
        mask: u64,
        pages: &mut Vec<Page>,
    )
        requires table { seat.old.table_id ≡ self.now.table.shared.table_id }
        requires word { 64 * word < self.now.frames }
        requires mask { IsMaskBelow self.now.frames word mask }
        requires in_words { All (IsInWords self.now.table.shared.table_id.words) pages.old.items }
        requires claim { (n : ℕ) × (v : View) × (c : Claim)
            × HasClaimed n v c seat.old.me pages.old.items
            × (length pages.old.items + length (frames_in word mask) ≤ n)
            × (n ≤ vec_capacity pages.old) }
        ensures same { (seat.new.table_id ≡ seat.old.table_id) × (seat.new.id ≡ seat.old.id)
            × (vec_capacity pages.new ≡ vec_capacity pages.old) }
        ensures in_words { All (IsInWords self.now.table.shared.table_id.words) pages.new.items }
        ensures claim { (n : ℕ) (v : View) (c : Claim)
            → HasClaimed n v c seat.old.me pages.old.items
            → (d : Claim) × HasClaimed n v d seat.new.me pages.new.items
            × ((f : ℕ) → times_met f c + occurrences f (frames_in word mask) ≤ times_met f d) }
    {
        let shared = &self.table.shared;
        let found = shared.fetch_or::<WinFrames>(seat, word as usize, mask);
        self.fetch_pages(seat, word, mask & !found, pages);
    }

    // The pages of the frames that were won in one word.
    fn fetch_pages(
        &self,
        seat: &mut Seat<Option<Vec<u8>>, View>,
        word: u32,
        won: u64,
        pages: &mut Vec<Page>,
    )
        requires table { seat.old.table_id ≡ self.now.table.shared.table_id }
        requires won { IsMaskBelow self.now.frames word won }
        requires in_words { All (IsInWords self.now.table.shared.table_id.words) pages.old.items }
        requires seat { IsFetching (frames_in word won) (frames_of_pages pages.old.items)
            seat.old.me }
        requires room { length pages.old.items + length (frames_in word won)
            ≤ vec_capacity pages.old }
        requires blank { All (λ p. IsBlankPage seat.old.me.0.page_size p.bytes) pages.old.items }
        ensures same { (seat.new.table_id ≡ seat.old.table_id) × (seat.new.id ≡ seat.old.id)
            × (vec_capacity pages.new ≡ vec_capacity pages.old) }
        ensures in_words { All (IsInWords self.now.table.shared.table_id.words) pages.new.items }
        ensures fetched { seat.new.me
            ≡ (fetched_view seat.old.me.0 [] (frames_of_pages pages.new.items), []) }
        ensures count { length pages.new.items
            ≡ length pages.old.items + length (frames_in word won) }
        ensures blank { All (λ p. IsBlankPage seat.old.me.0.page_size p.bytes) pages.new.items }
    {
        for bit in 0..64 {
            if won >> bit & 1 == 1 {
                let frame = 64 * word + bit;
                let bytes = self.fetch_page(seat, frame);
                pages.push_reserved(Page { frame, bytes });
            }
        }
    }

    // The page of a frame that was won. Its slot goes home empty.
    fn fetch_page(&self, seat: &mut Seat<Option<Vec<u8>>, View>, frame: u32) -> Vec<u8>
        requires table { seat.old.table_id ≡ self.now.table.shared.table_id }
        requires frame { IsNextToFetch frame seat.old.me }
        ensures same { (seat.new.table_id ≡ seat.old.table_id) × (seat.new.id ≡ seat.old.id) }
        ensures fetched { seat.new.me ≡ (settled_view (fetching_view seat.old.me.0), []) }
        ensures blank { IsBlankPage seat.old.me.0.page_size result }
    {
        let shared = &self.table.shared;
        shared.load::<FetchPage>(seat, 0);
        let page = shared.exchange(seat, frame as usize, None);
        shared.load::<LeaveSlot>(seat, 0);
        page.unwrap()
    }

    // A claim that got too few brings its pages home.
    fn give_up(&self, seat: &mut Seat<Option<Vec<u8>>, View>, pages: &mut Vec<Page>)
        requires table { seat.old.table_id ≡ self.now.table.shared.table_id }
        requires seat { (seat.old.me.0.share ≡ 1) × (seat.old.me.0.slots_held ≡ [])
            × (seat.old.me.1 ≡ []) × (length seat.old.me.0.frames_out ≤ seat.old.me.0.granted) }
        requires in_words { All (IsInWords self.now.table.shared.table_id.words) pages.old.items }
        requires pages { HasBlankPages seat.old.me.0.page_size seat.old.me.0.frames_out
            pages.old.items }
        ensures same { (seat.new.table_id ≡ seat.old.table_id) × (seat.new.id ≡ seat.old.id) }
        ensures given_up { seat.new.me ≡ (refusing_view seat.old.me.0 [], []) }
        ensures pages { (pages.new.items ≡ []) × (vec_capacity pages.new ≡ vec_capacity pages.old) }
    {
        while let Some(Page { frame, bytes }) = pages.pop() {
            self.put_page(seat, frame, bytes);
            self.give_up_frame(seat, frame);
        }
    }

    // Clears the bit of a frame whose page is in its slot again.
    fn give_up_frame(&self, seat: &mut Seat<Option<Vec<u8>>, View>, frame: u32)
        requires table { seat.old.table_id ≡ self.now.table.shared.table_id }
        requires word { frame / 64 < self.now.table.shared.table_id.words }
        requires granted { 1 ≤ seat.old.me.0.granted }
        requires page { HasPutPage frame seat.old.me }
        ensures same { (seat.new.table_id ≡ seat.old.table_id) × (seat.new.id ≡ seat.old.id) }
        ensures home { seat.new.me ≡ (yielded_view seat.old.me.0, []) }
    {
        let rest = !(1u64 << (frame % 64));
        self.table
            .shared
            .fetch_and::<GiveUp>(seat, (frame / 64) as usize, rest);
    }
}

// Are there fewer pages than were asked for?
fn is_short(pages: &Vec<Page>, n: u32) -> bool
    ensures { IsTrue result ↔ (vec_len pages.now < n) }
{
    let asked = n as usize;
    pages.len() < asked
}

// The lowest bits from `from` on that are clear in a word, at most `need` of them, and the bit
// where it stopped.
fn pick(found: u64, from: u32, limit: u32, need: u32) -> (u64, u32)
    requires { (from < limit) × (limit ≤ 64) × (0 < need) }
    ensures end { (from < result.1) × (result.1 ≤ limit) }
    ensures bits { IsPick found from result.1 result.0 }
    ensures few { length (frames_in 0 result.0) ≤ need }
{
    let mut mask = 0u64;
    let mut left = need;
    for j in from..limit {
        if left == 0 {
            return (mask, j);
        }
        let bit = 1u64 << j;
        if found & bit == 0 {
            mask |= bit;
            left -= 1;
        }
    }
    (mask, limit)
}
