//! A plain model of a memory: what stands in each page, and which buffers are still there.
use crate::player::PAGES;
use host_block::Oom;
use std::alloc::Global;

#[derive(Clone, Copy)]
struct PlainBuffer {
    from: u32,
    closer: Option<u32>,
    here: bool,
    pins: u32,
    /// The value of all bytes of each page.
    fills: [u8; 3],
}

#[derive(Drop)]
pub(crate) struct Plain {
    buffers: Vec<PlainBuffer>,
}

impl Plain {
    pub(crate) fn new(alloc: Global) -> Plain {
        Plain {
            buffers: Vec::new(alloc),
        }
    }

    pub(crate) fn attach(&mut self, from: u32) -> Result<(), Oom> {
        let buffer = PlainBuffer {
            from,
            closer: None,
            here: true,
            pins: 0,
            fills: [0; 3],
        };
        match self.buffers.push(buffer) {
            Ok(()) => Ok(()),
            Err(_) => Err(Oom),
        }
    }

    pub(crate) fn given(&self) -> usize {
        self.buffers.len()
    }

    /// How many buffers have their pages.
    pub(crate) fn here(&self) -> usize {
        self.buffers.iter().filter(|b| b.here).count()
    }

    fn get(&self, id: u16) -> Option<PlainBuffer> {
        let place = (id as usize).checked_sub(1)?;
        self.buffers.get(place).copied()
    }

    fn put(&mut self, id: u16, buffer: PlainBuffer) {
        if let Some(place) = (id as usize).checked_sub(1) {
            if let Some(old) = self.buffers.get_mut(place) {
                *old = buffer;
            }
        }
    }

    pub(crate) fn standing(&self, id: u16, index: u32) -> Option<u32> {
        let b = self.get(id)?;
        let open = match b.closer {
            Some(closer) => index <= closer,
            None => true,
        };
        if b.here && open && b.from <= index {
            Some(PAGES)
        } else {
            None
        }
    }

    /// Whether a record can pin or close the buffer.
    pub(crate) fn is_open_for(&self, id: u16, index: u32) -> bool {
        self.standing(id, index).is_some() && self.get(id).is_some_and(|b| b.closer.is_none())
    }

    /// What stands in these pages, where the buffer has them.
    pub(crate) fn has_blocks(&self, id: u16, block: u32, count: u32) -> Option<[u8; 3]> {
        let b = self.get(id)?;
        let within = count <= PAGES && block <= PAGES - count;
        if b.here && within {
            Some(b.fills)
        } else {
            None
        }
    }

    pub(crate) fn fill(&mut self, id: u16, block: u32, count: u32, byte: u8) {
        if let Some(mut b) = self.get(id) {
            for (k, fill) in b.fills.iter_mut().enumerate() {
                if block as usize <= k && k - (block as usize) < count as usize {
                    *fill = byte;
                }
            }
            self.put(id, b);
        }
    }

    pub(crate) fn page(&self, id: u16, block: u32) -> Option<u8> {
        let b = self.get(id)?;
        b.fills.get(block as usize).copied()
    }

    pub(crate) fn pin(&mut self, id: u16) {
        if let Some(mut b) = self.get(id) {
            b.pins = b.pins.saturating_add(1);
            self.put(id, b);
        }
    }

    /// Which record closed the buffer, where its pages leave with this pin.
    pub(crate) fn let_go(&mut self, id: u16) -> Option<u32> {
        let mut b = self.get(id)?;
        b.pins = b.pins.saturating_sub(1);
        let left = b.closer.is_some() && b.pins == 0;
        b.here = b.here && !left;
        self.put(id, b);
        if left { b.closer } else { None }
    }

    /// Whether the pages leave with this close.
    pub(crate) fn close(&mut self, id: u16, index: u32) -> bool {
        match self.get(id) {
            Some(mut b) => {
                b.closer = Some(index);
                let left = b.pins == 0;
                b.here = b.here && !left;
                self.put(id, b);
                left
            }
            None => false,
        }
    }
}
