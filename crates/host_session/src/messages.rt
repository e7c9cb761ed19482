//! Records go out, and answers come in.
ghost use Rattle.std.specs.Prelude.{◌≡◌, ◌+◌, ◌<◌, ◌≤◌, if◌then◌else◌, true, false, length};
ghost use Rattle.std.specs.Prelude.{MatchOption, Some};
ghost use Rattle.host_model.specs.Groups.{is_owing};
ghost use Rattle.host_model.specs.Log.{received, sent};
ghost use Rattle.host_record.specs.Request.{request_of};
ghost use Rattle.host_record.specs.Response.{response_of};
ghost use Rattle.host_session.specs.Acts.{is_answer};
ghost use Rattle.host_session.specs.Calls.{HasFoundAnswer, IsRecvAnswer, IsSendAnswer};
ghost use Rattle.host_session.specs.Client.{room_left};
ghost use Rattle.host_session.specs.Plan.{IsShared};

use crate::client::{ClientEnd, is_aborted};
use crate::error::SendError;
use crate::shared::SessionShared;
use host_model::Event;
use host_record::{Request, Response};
use host_rings::{Envelope, Note, Slip, SlipTaker};
use std::sync::Wait;

impl ClientEnd {
    /// A note of all that was sent so far, for those that take it.
    pub fn tell(&mut self) -> Note
        ensures same { self.new ≡ self.old }
        ensures ring { result.ring ≡ self.old.plan.requests }
        ensures count { length result.pushed ≡ length (sent self.old.log) }
    {
        self.sender.tell()
    }

    /// Sends a record of 32 bytes, and tells its index.
    pub fn send<R: Wait>(
        &mut self,
        rt: &R,
        shared: &SessionShared,
        bytes: [u8; 32],
    ) -> Result<u32, SendError>
        requires shared { IsShared self.old.plan shared.now }
        requires records { length (sent self.old.log) < self.old.plan.spec.records }
        requires room { 1 ≤ room_left self.old }
        ensures { IsSendAnswer bytes self.old self.new result }
    {
        let _shared = shared;
        if self.finish.is_some() {
            return Err(SendError::Closed);
        }
        let index = self.sent;
        let envelope = Envelope {
            bytes,
            index,
            device_front: self.fronts.device,
            memory_front: self.fronts.memory,
        };
        let Ok(()) = self.sender.push(rt, envelope) else {
            return Err(SendError::Full);
        };
        self.sent += 1;
        self.owed = owed_after(self.owed, &bytes);
        self.log.push(Event::Sent { index, bytes });
        Ok(index)
    }

    /// Receives an answer. There is none after an abort.
    pub fn recv<R: Wait>(&mut self, rt: &R, shared: &SessionShared) -> Option<Response>
        requires shared { IsShared self.old.plan shared.now }
        requires few { length (received self.old.log) < 4294967295 }
        requires room { 1 ≤ room_left self.old }
        ensures { IsRecvAnswer self.old self.new result }
    {
        let _shared = shared;
        if is_aborted(self.finish) {
            return None;
        }
        let (slip, response) = next_answer(rt, &mut self.taker, self.sent)?;
        self.fronts = self.fronts.raised_by(&slip);
        self.received += 1;
        self.log.push(Event::Received { bytes: slip.bytes });
        Some(response)
    }
}

// How many answers are owed, once this record was sent: one more for a lone record, or one that
// closes its group.
fn owed_after(owed: u32, bytes: &[u8; 32]) -> u32
    requires { owed < 4294967295 }
    ensures { result ≡ owed + (if is_owing (request_of bytes.now) then 1 else 0) }
{
    if is_owing(&Request::from_bytes(bytes)) {
        owed + 1
    } else {
        owed
    }
}

// Whether a record is owed an answer of its own: a lone one, or one that closes its group.
fn is_owing(r: &Request) -> bool
    ensures { result ≡ is_owing r.now }
{
    !r.is_grouped() || r.group > 7 || r.is_last()
}

// The next slip that answers one of so many records sent. Others are thrown away.
fn next_answer<R: Wait>(rt: &R, taker: &mut SlipTaker, sent: u32) -> Option<(Slip, Response)>
    ensures { HasFoundAnswer sent taker.old taker.new result }
{
    for _ in rt.forever() {
        let slip = taker.pop(rt)?;
        if let Some(response) = answer_in(&slip, sent) {
            return Some((slip, response));
        }
    }
    unreachable!()
}

// The answer in a slip, where it answers one of so many records sent.
fn answer_in(slip: &Slip, sent: u32) -> Option<Response>
    ensures { MatchOption result (is_answer sent slip.now ≡ false)
        (λ r. (is_answer sent slip.now ≡ true) × (response_of slip.now.bytes ≡ Some r)) }
{
    if slip.index < sent {
        Response::from_bytes(&slip.bytes)
    } else {
        None
    }
}
