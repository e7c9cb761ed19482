//! Pages come home.
ghost use Rattle.std.specs.Prelude.{◌≡◌, ◌+◌, ◌/◌, ◌<◌, [], ◌∷◌, length, Some, All, vec_len};
ghost use Rattle.host_frames.specs.Views.{reached_view, returned_view};
ghost use Rattle.host_frames.specs.Homes.{IsBlankPage};
ghost use Rattle.host_frames.specs.Badges.{IsInWords, frames_of_pages};
ghost use Rattle.host_frames.specs.Moments.{IsNextHome, HasPutPage, returning_view};
ghost use Rattle.host_frames.specs.Seats.{pool_id, seat_pool, pages_pool, contents, claims};
ghost use Rattle.host_frames.specs.Seats.{granted, given_back};

use crate::page::Page;
use crate::pages::Pages;
use crate::pool::Pool;
use crate::seat::PoolSeat;
use crate::steps::{BringHome, TakeSlot, UnpackPages};
use crate::view::View;
use atomic_table::Seat;

impl Pool {
    /// Brings the pages home, blank again. It waits for nobody and takes no memory.
    pub fn give_back(&self, seat: &mut PoolSeat, pages: Pages)
        requires seat { seat_pool seat.old ≡ pool_id self.now }
        requires pages { pages_pool pages ≡ pool_id self.now }
        ensures seat { (seat_pool seat.new ≡ seat_pool seat.old)
            × (claims seat.new ≡ claims seat.old) × (granted seat.new ≡ granted seat.old) }
        ensures given_back { given_back seat.new ≡ given_back seat.old + length (contents pages) }
    {
        let Pages { all, badge } = pages;
        if !all.is_empty() {
            let packed = badge.into_seat();
            self.table
                .shared
                .join_seat::<UnpackPages>(&mut seat.seat, packed);
            self.bring_home(&mut seat.seat, all);
        }
    }

    fn bring_home(&self, seat: &mut Seat<Option<Vec<u8>>, View>, mut all: Vec<Page>)
        requires table { seat.old.table_id ≡ self.now.table.shared.table_id }
        requires seat { (seat.old.me.0.share ≡ 1) × (seat.old.me.0.slots_held ≡ [])
            × (seat.old.me.1 ≡ []) }
        requires in_words { All (IsInWords self.now.table.shared.table_id.words) all.items }
        requires pages { (frames_of_pages all.items ≡ seat.old.me.0.frames_out)
            × All (λ p. length p.bytes.items ≡ seat.old.me.0.page_size) all.items }
        ensures same { (seat.new.table_id ≡ seat.old.table_id) × (seat.new.id ≡ seat.old.id) }
        ensures given_back { seat.new.me ≡ (returning_view seat.old.me.0 [], []) }
    {
        while let Some(Page { frame, mut bytes }) = all.pop() {
            clear(&mut bytes);
            self.put_page(seat, frame, bytes);
            self.bring_frame_home(seat, frame);
        }
    }

    // Clears the bit of a frame whose page is in its slot. The slot goes home by the same step.
    fn bring_frame_home(&self, seat: &mut Seat<Option<Vec<u8>>, View>, frame: u32)
        requires table { seat.old.table_id ≡ self.now.table.shared.table_id }
        requires word { frame / 64 < self.now.table.shared.table_id.words }
        requires page { HasPutPage frame seat.old.me }
        ensures same { (seat.new.table_id ≡ seat.old.table_id) × (seat.new.id ≡ seat.old.id) }
        ensures home { seat.new.me ≡ (returned_view seat.old.me.0, []) }
    {
        let rest = !(1u64 << (frame % 64));
        self.table
            .shared
            .fetch_and::<BringHome>(seat, (frame / 64) as usize, rest);
    }

    // Puts a blank page into its slot, which stays out with the seat.
    pub(crate) fn put_page(&self, seat: &mut Seat<Option<Vec<u8>>, View>, frame: u32, page: Vec<u8>)
        requires table { seat.old.table_id ≡ self.now.table.shared.table_id }
        requires frame { IsNextHome frame seat.old.me }
        requires blank { IsBlankPage seat.old.me.0.page_size page }
        ensures same { (seat.new.table_id ≡ seat.old.table_id) × (seat.new.id ≡ seat.old.id) }
        ensures put { seat.new.me ≡ (reached_view seat.old.me.0, (frame, Some page) ∷ []) }
        ensures has_put { HasPutPage frame seat.new.me }
    {
        let shared = &self.table.shared;
        shared.load::<TakeSlot>(seat, 0);
        let nothing = shared.exchange(seat, frame as usize, Some(page));
        let None = nothing else { unreachable!() };
    }
}

// Makes each byte of a page zero.
fn clear(page: &mut Vec<u8>)
    ensures { IsBlankPage (vec_len page.old) page.new }
{
    page.fill(0);
}
