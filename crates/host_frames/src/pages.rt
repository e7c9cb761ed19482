//! Pages that are out.
ghost use Rattle.std.specs.Prelude.{◌≡◌, ◌<◌, ◌≤◌, ◌↔◌, [], length, slice_get, Some, IsTrue, IfOk};
ghost use Rattle.std.specs.Borrow.{sem};

use crate::page::Page;
use crate::view::View;
use atomic_table::Badge;
use host_block::Oom;
use std::alloc::Global;
use std::marker::Model;

/// Pages of one pool, each one block long, or none yet. No other owner has a page of them.
///
/// With them goes the badge of a seat that names their frames. Contracts see which pool it is, how
/// many pages fit, and each page's frame and bytes.
#[derive(Drop)]
pub struct Pages {
    pub(crate) all: Vec<Page>,
    pub(crate) badge: Badge<View>,
}

impl Model for Pages {
    ghost use Rattle.std.specs.Prelude.{ℕ, List, map, vec_capacity};
    ghost use base.Stored.{coded×, coded_ℕ, coded_list};
    ghost use Rattle.atomic_table.specs.Seated.{TableId, table_id_coded};
    ghost use Rattle.host_frames.specs.Badges.{ArePagesWhole, badge_page_size, seen_page};

    ghost Value = { (TableId × ℕ) × (ℕ × List (ℕ × List ℕ)) };

    ghost coded = { coded× (coded× table_id_coded coded_ℕ)
        (coded× coded_ℕ (coded_list (coded× coded_ℕ (coded_list coded_ℕ)))) };

    ghost view = { λ p. (
      (p.badge.table_id, badge_page_size p.badge.views),
      (vec_capacity p.all, map seen_page p.all.items),
    ) };

    ghost invariant = { λ p. ArePagesWhole p.badge.views p.badge.table_id.words p.all.items };
}

impl Pages {
    ghost use Rattle.host_frames.specs.PagesLending.{LendsPage};
    ghost use Rattle.host_frames.specs.Seats.{contents, room};

    /// No pages, and room for n.
    pub fn with_room(alloc: Global, n: u32) -> Result<Pages, Oom>
        ensures { IfOk result (λ p. (contents p ≡ []) × (n ≤ room p)) }
    {
        match Vec::with_capacity(alloc, n as usize) {
            Ok(all) => Ok(Pages {
                all,
                badge: Badge::blank(),
            }),
            Err(_) => Err(Oom),
        }
    }

    pub fn len(&self) -> u32
        ensures { result ≡ length (contents self.now) }
    {
        self.all.len() as u32
    }

    pub fn is_empty(&self) -> bool
        ensures { IsTrue result ↔ (contents self.now ≡ []) }
    {
        self.all.is_empty()
    }

    /// The bytes of the page i.
    pub fn page(&self, i: u32) -> &[u8]
        requires { i < length (contents self.now) }
        ensures { slice_get (contents self.now) i ≡ Some result.now }
    {
        self.all[i as usize].bytes.as_slice()
    }

    /// The bytes of the page i, to be written.
    pub fn page_mut(&mut self, i: u32) -> &mut [u8]
        requires { i < length (contents self.old) }
        ensures* writes_back { sem 𝓛 (LendsPage self.entry i result) }
        ensures value { slice_get (contents self.old) i ≡ Some result.now }
    {
        let page = &mut self.all[i as usize];
        page.lend()
    }
}
