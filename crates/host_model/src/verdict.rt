//! What the checks made of a record.
ghost use Rattle.std.specs.Prelude.{◌≡◌};
ghost use Rattle.host_model.specs.Verdict.{is_within, judged};

use host_block::Range;
use host_record::{Request, Status};

/// Whether a record was accepted.
#[derive(Clone, Copy, Debug, PartialEq, Eq)]
pub enum Verdict {
    Accepted,
    Refused(Status),
}

impl Verdict {
    /// The verdict on a request in this partition, by the first check that fails. Its buffer has so
    /// many pages; `None` where it isn't attached for the request.
    #[tactic(auto, unfolding(crate::specs::Verdict::judged))]
    pub fn on(request: &Request, part: &Range, pages: Option<u32>) -> Verdict
        ensures { result ≡ judged part.now pages request.now }
    {
        if request.is_grouped() && request.group > 7 {
            return Verdict::Refused(Status::InvalidArgs);
        }
        let Some(opcode) = request.opcode() else {
            return Verdict::Refused(Status::NotSupported);
        };
        if request.has_unknown_bit() {
            return Verdict::Refused(Status::InvalidArgs);
        }
        if opcode.names_blocks() && (request.length < 1 || request.length > 65536) {
            return Verdict::Refused(Status::InvalidArgs);
        }
        if opcode.names_blocks() && !lies_within(request.dev_offset, request.length, part.count) {
            return Verdict::Refused(Status::OutOfRange);
        }
        if opcode.names_buffer() && pages.is_none() {
            return Verdict::Refused(Status::NotFound);
        }
        let pages = pages.unwrap_or(0) as u64;
        if opcode.is_transfer() && !lies_within(request.vmo_offset, request.length, pages) {
            return Verdict::Refused(Status::TooSmall);
        }
        Verdict::Accepted
    }
}

// Whether so many blocks from an offset on lie among `count`.
fn lies_within(offset: u64, len: u32, count: u64) -> bool
    ensures { result ≡ is_within offset len count }
{
    len as u64 <= count && offset <= count - len as u64
}
