//! One attached buffer.
ghost use Rattle.std.specs.Prelude.{◌≡◌, ◌==◌, ℕ, if◌then◌else◌, None, Some, ◌+◌, ◌*◌, ◌<◌, ◌≤◌};
ghost use Rattle.std.specs.Prelude.{[], length, replicate, slice_set, slice_index_or, flat_map};
ghost use Rattle.std.specs.Prelude.{IsTrue};
ghost use Rattle.std.specs.List.{range_with_len};
ghost use Rattle.std.specs.Option.{is_some};
ghost use Rattle.host_frames.specs.Seats.{contents, pages_pool};
ghost use Rattle.host_memory.specs.PagesHeld.{contents_held, has_pages_at, outline, page_filled};
ghost use Rattle.host_memory.specs.PagesHeld.{page_held, pages_standing};

use host_frames::Pages;

/// One buffer: its pages until they leave, and what its entries tell.
#[derive(Drop)]
pub(crate) struct Buffer {
    /// How many pages it was attached with, and how many records had been sent then.
    pub(crate) page_count: u32,
    pub(crate) from: u32,
    pub(crate) pages: Option<Pages>,
    /// The record that closed it.
    pub(crate) closer: Option<u32>,
    /// How many records hold it.
    pub(crate) pins: u32,
}

impl Buffer {
    /// Whether it has pages, and these blocks are within them.
    pub(crate) fn has_blocks(&self, block: u32, count: u32) -> bool
        ensures answer { result ≡ has_pages_at self.now.pages block count }
        ensures sum { IsTrue result → block + count < 4294967296 }
    {
        match &self.pages {
            Some(pages) => count <= pages.len() && block <= pages.len() - count,
            None => false,
        }
    }

    pub(crate) fn holds_pages(&self) -> bool
        ensures { result ≡ is_some self.now.pages }
    {
        self.pages.is_some()
    }

    /// The record that closed it, where no record holds it.
    pub(crate) fn closer_where_free(&self) -> Option<u32>
        ensures { result ≡ (if self.now.pins == 0 then self.now.closer else None) }
    {
        if self.pins == 0 { self.closer } else { None }
    }

    /// Its pages, where it stands for the record of that index.
    pub(crate) fn standing_for(&self, index: u32) -> Option<u32>
        ensures { result
            ≡ pages_standing self.now.pages self.now.closer self.now.from self.now.page_count
            index }
    {
        let open = self.closer.is_none_or(|closer| index <= closer);
        if self.holds_pages() && open && self.from <= index {
            Some(self.page_count)
        } else {
            None
        }
    }

    /// Writes one value into all bytes of these pages.
    pub(crate) fn fill(&mut self, block: u32, count: u32, byte: u8)
        requires blocks { block + count ≤ length (contents_held self.old.pages) }
        requires sum { block + count < 4294967296 }
        ensures same { self.new ≡ record self.old { pages = self.new.pages } }
        ensures outline { outline self.new.pages ≡ outline self.old.pages }
        ensures pages { (k : ℕ)
            → page_held self.new.pages k ≡ page_filled block count byte self.old.pages k }
    {
        if let Some(pages) = &mut self.pages {
            fill_pages(pages, block, count, byte);
        }
    }

    /// The bytes of a page.
    pub(crate) fn page(&self, block: u32) -> &[u8]
        requires { block < length (contents_held self.now.pages) }
        ensures { result.now ≡ page_held self.now.pages block }
    {
        match &self.pages {
            Some(pages) => pages.page(block),
            None => unreachable!(),
        }
    }

    /// Copies a page.
    pub(crate) fn copy_out(&self, block: u32, into: &mut [u8])
        requires block { block < length (contents_held self.now.pages) }
        requires long { length into.old ≡ length (page_held self.now.pages block) }
        ensures { into.new ≡ page_held self.now.pages block }
    {
        into.copy_from_slice(self.page(block));
    }

    /// Writes a whole page.
    pub(crate) fn copy_in(&mut self, block: u32, from: &[u8])
        requires block { block < length (contents_held self.old.pages) }
        requires long { length from.now ≡ length (page_held self.old.pages block) }
        ensures same { self.new ≡ record self.old { pages = self.new.pages } }
        ensures outline { outline self.new.pages ≡ outline self.old.pages }
        ensures pages { contents_held self.new.pages
            ≡ slice_set (contents_held self.old.pages) block from.now }
    {
        if let Some(pages) = &mut self.pages {
            put_page(pages, block, from);
        }
    }

    /// Copies these pages, one after the other.
    pub(crate) fn show(&self, block: u32, count: u32, size: u32, into: &mut [u8])
        requires blocks { block + count ≤ length (contents_held self.now.pages) }
        requires sum { block + count < 4294967296 }
        requires pages { (k : ℕ) → k < length (contents_held self.now.pages)
            → length (page_held self.now.pages k) ≡ size }
        requires into { length into.old ≡ count * size }
        ensures { into.new ≡ flat_map (page_held self.now.pages) (range_with_len block count) }
    {
        for i in 0..count {
            let at = i as usize * size as usize;
            self.copy_out(block + i, &mut into[at..at + size as usize]);
        }
    }
}

fn fill_bytes(page: &mut [u8], byte: u8)
    ensures { page.new ≡ replicate (length page.old) byte }
{
    page.fill(byte);
}

// Writes one value into all bytes of a page.
fn fill_page(pages: &mut Pages, block: u32, byte: u8)
    requires { block < length (contents pages.old) }
    ensures pool { pages_pool pages.new ≡ pages_pool pages.old }
    ensures pages { contents pages.new
        ≡ slice_set (contents pages.old) block
        (replicate (length (slice_index_or (contents pages.old) block [])) byte) }
{
    fill_bytes(pages.page_mut(block), byte);
}

fn put_page(pages: &mut Pages, block: u32, from: &[u8])
    requires block { block < length (contents pages.old) }
    requires long { length from.now ≡ length (slice_index_or (contents pages.old) block []) }
    ensures pool { pages_pool pages.new ≡ pages_pool pages.old }
    ensures pages { contents pages.new ≡ slice_set (contents pages.old) block from.now }
{
    pages.page_mut(block).copy_from_slice(from);
}

fn fill_pages(pages: &mut Pages, block: u32, count: u32, byte: u8)
    requires blocks { block + count ≤ length (contents pages.old) }
    requires sum { block + count < 4294967296 }
    ensures pool { pages_pool pages.new ≡ pages_pool pages.old }
    ensures length { length (contents pages.new) ≡ length (contents pages.old) }
    ensures pages { (k : ℕ)
        → page_held (Some pages.new) k ≡ page_filled block count byte (Some pages.old) k }
{
    for i in block..block + count {
        fill_page(pages, i, byte);
    }
}
