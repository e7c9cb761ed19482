//! The client's end of a session.
ghost use Rattle.std.specs.Prelude.{◌≡◌, not, length};
ghost use Rattle.host_model.specs.Lists.{count};
ghost use Rattle.host_model.specs.Log.{received, sent};
ghost use Rattle.host_model.specs.Taking.{is_end};
ghost use Rattle.host_session.specs.Client.{ends_logged, is_aborted, is_drained, room_left};
ghost use Rattle.host_session.specs.Endings.{owed_count};
ghost use Rattle.host_session.specs.Kept.{IsClient};

use crate::fronts::Fronts;
use crate::room::ClosingRoom;
use crate::spec::SessionSpec;
use host_frames::Pool;
use host_group::Cells;
use host_intake::Intake;
use host_log::SwitchLog;
use host_memory::Memory;
use host_model::Event;
use host_record::Finish;
use host_rings::{Sender, SlipTaker};
use host_turn::BookSeat;
use std::alloc::Global;
use std::marker::Model;
use std::snapshot::Snapshot;

/// The client's end of a session. It logs each call of its client.
///
/// Contracts see the session's fixed part, the log, how the session was ended, the fronts that the
/// end knows, and its seats and ends of the rings.
#[derive(Drop)]
pub struct ClientEnd {
    pub(crate) alloc: Global,
    pub(crate) spec: SessionSpec,
    pub(crate) hands: u32,
    pub(crate) pool: Snapshot<Pool>,
    pub(crate) cells: Snapshot<Cells>,
    pub(crate) log: SwitchLog<Event>,
    // How many records were sent, answers received, buffers given, and answers owed for what was
    // sent.
    pub(crate) sent: u32,
    pub(crate) received: u32,
    pub(crate) given: u32,
    pub(crate) owed: u32,
    pub(crate) finish: Option<Finish>,
    pub(crate) closed: bool,
    pub(crate) fronts: Fronts,
    pub(crate) intake_seat: BookSeat<Intake>,
    pub(crate) memory_seat: BookSeat<Memory>,
    pub(crate) sender: Sender,
    pub(crate) taker: SlipTaker,
    pub(crate) closing: ClosingRoom,
}

impl Model for ClientEnd {
    ghost use Rattle.host_session.specs.Client.{ClientState};
    ghost use Rattle.host_session.specs.ClientFields.{client_state, IsClientKept};

    ghost Value = { ClientState };

    ghost view = { client_state };

    ghost invariant = { IsClientKept };
}

impl ClientEnd {
    /// The session's number.
    pub fn number(&self) -> u32
        ensures { result ≡ self.now.plan.spec.number }
    {
        self.spec.number
    }

    /// How many records were sent.
    pub fn sent(&self) -> u32
        ensures { result ≡ length (sent self.now.log) }
    {
        self.sent
    }

    /// How many answers were received.
    pub fn received(&self) -> u32
        ensures { result ≡ length (received self.now.log) }
    {
        self.received
    }

    /// How many answers are owed for what was sent.
    pub fn owed(&self) -> u32
        ensures { result ≡ owed_count self.now.log }
    {
        self.owed
    }

    /// How the session was told to end, once it was.
    pub fn told_end(&self) -> Option<Finish>
        ensures { result ≡ self.now.finish }
    {
        self.finish
    }

    /// How many events still fit into the log, beside the one that ends it.
    pub fn room(&self) -> u64
        ensures { result ≡ room_left self.now }
    {
        self.spec.events - self.event_count()
    }

    /// Says what is true of every client end. It does nothing.
    pub fn vouch(&self)
        ensures { IsClient self.now }
    {
        let _spec = &self.spec;
    }

    // How many events were logged but the one that ends the log.
    fn event_count(&self) -> u64
        ensures { result ≡ count (λ e. not (is_end e)) self.now.log }
    {
        self.log.len() - end_count(self.finish, self.closed)
    }
}

/// Whether the session was aborted.
pub(crate) fn is_aborted(finish: Option<Finish>) -> bool
    ensures { result ≡ is_aborted finish }
{
    matches!(finish, Some(Finish::Abort))
}

/// Whether the session was told to drain.
pub(crate) fn is_drained(finish: Option<Finish>) -> bool
    ensures { result ≡ is_drained finish }
{
    matches!(finish, Some(Finish::Drain))
}

// How many events were logged that end a log.
fn end_count(finish: Option<Finish>, closed: bool) -> u64
    ensures { result ≡ length (ends_logged finish closed) }
{
    match finish {
        None => 0,
        Some(Finish::Abort) => 1,
        Some(Finish::Drain) => { if closed { 1 } else { 0 } }
    }
}
