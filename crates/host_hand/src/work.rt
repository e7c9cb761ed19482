// What a record that was taken is to the hand that carries it out.
ghost use Rattle.std.specs.Prelude.{◌≡◌, IsSome};
ghost use Rattle.host_record.specs.Command.{opcode};
ghost use Rattle.host_hand.specs.WorkKinds.{work_for};

use host_frames::Pages;
use host_record::{Opcode, Request, Status};

/// What is to be done for a record.
#[derive(Drop)]
pub(crate) enum Work {
    Refuse(Status),
    /// The pages are those of the buffer that it closed.
    Close(Pages),
    Read,
    Write,
    Trim,
    Flush,
}

/// What is to be done for a record that was accepted. There is nothing yet for a close without its
/// pages, which waits.
pub(crate) fn work_of(request: &Request, pages: Option<Pages>) -> Option<Work>
    requires { IsSome (opcode request.now) }
    ensures { result ≡ work_for (opcode request.now) pages }
{
    match request.opcode() {
        Some(Opcode::Read) => Some(Work::Read),
        Some(Opcode::Write) => Some(Work::Write),
        Some(Opcode::Trim) => Some(Work::Trim),
        Some(Opcode::Flush) => Some(Work::Flush),
        Some(Opcode::Close) => match pages {
            Some(pages) => Some(Work::Close(pages)),
            None => None,
        },
        None => unreachable!(),
    }
}
