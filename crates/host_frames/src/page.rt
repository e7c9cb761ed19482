//! One page that is out.
ghost use Rattle.std.specs.Prelude.{◌≡◌};
ghost use Rattle.std.specs.Borrow.{sem};
ghost use Rattle.host_frames.specs.PageLending.{LendsBytes};

/// The bytes of a frame.
#[derive(Drop)]
pub(crate) struct Page {
    pub(crate) frame: u32,
    pub(crate) bytes: Vec<u8>,
}

impl Page {
    pub(crate) fn lend(&mut self) -> &mut [u8]
        ensures* writes_back { sem 𝓛 (LendsBytes self.entry result) }
        ensures value { result.now ≡ self.old.bytes.items }
    {
        self.bytes.as_mut_slice()
    }
}
