// A record that a hand is to carry out.
ghost use Rattle.std.specs.Prelude.{◌≡◌, ◌+◌, ◌<◌, ◌^◌};
ghost use Rattle.host_hand.specs.Errands.{errand_of, flushes_after};

use host_block::{BlockSize, Op, Range};
use host_record::Request;
use host_rings::Envelope;
use host_session::SessionSpec;

/// A record that a hand is to carry out: for which session, on which partition, and past which
/// fronts.
#[derive(Clone, Copy)]
pub(crate) struct Errand {
    pub(crate) hand: u32,
    pub(crate) session: u32,
    pub(crate) part: Range,
    pub(crate) size: BlockSize,
    pub(crate) index: u32,
    pub(crate) device_front: u64,
    pub(crate) memory_front: u64,
    pub(crate) request: Request,
}

impl Errand {
    pub(crate) fn of(hand: u32, spec: &SessionSpec, envelope: &Envelope) -> Errand
        ensures { result ≡ errand_of hand spec.now envelope.now }
    {
        Errand {
            hand,
            session: spec.number,
            part: spec.part,
            size: spec.size,
            index: envelope.index,
            device_front: envelope.device_front,
            memory_front: envelope.memory_front,
            request: Request::from_bytes(&envelope.bytes),
        }
    }

    // Its block k on the device.
    pub(crate) fn block(&self, k: u32) -> u64
        requires { self.now.part.first + self.now.request.dev_offset + k < 2 ^ 64 }
        ensures { result ≡ self.now.part.first + self.now.request.dev_offset + k }
    {
        self.part.first + self.request.dev_offset + k as u64
    }

    // Whether a flush comes after its blocks, as after those of a forced write.
    pub(crate) fn flushes_after(&self, op: Op) -> bool
        ensures { result ≡ flushes_after self.now op }
    {
        op == Op::Write && self.request.is_forced()
    }

    // The page of its buffer for step k. Pages have numbers of 32 bits.
    pub(crate) fn page(&self, k: u32) -> u32
        requires { self.now.request.vmo_offset + k < 4294967296 }
        ensures { result ≡ self.now.request.vmo_offset + k }
    {
        self.request.vmo_offset as u32 + k
    }
}
