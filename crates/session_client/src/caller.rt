//! The client of a session, with its seat at the pool of its pages.
ghost use Rattle.std.specs.Prelude.{◌≡◌, ◌≤◌, true, is_some};
ghost use Rattle.host_frames.specs.Seats.{pool_id, seat_pool};
ghost use Rattle.host_session.specs.Plan.{IsShared};

use host_block::Bytes;
use host_frames::{Pool, PoolSeat};
use host_record::{Finish, Request, Response};
use host_session::{AttachError, ClientEnd, SendError, SessionShared};
use std::alloc::Global;
use std::sync::Wait;

/// A client's end of a session that may give all ids, and its seat at the pool. A call that the
/// contracts of `host_session` don't allow isn't made: its answer is `None`, or false.
#[derive(Drop)]
pub struct Caller {
    pub(crate) client: ClientEnd,
    pub(crate) seat: PoolSeat,
    pub(crate) records: u32,
    pub(crate) ended: bool,
    ghost size: { client.plan.spec.size ≡ 512 },
    ghost ids: { 65535 ≤ client.plan.spec.attaches },
    ghost records_are: { records ≤ client.plan.spec.records },
    ghost ended_is: { is_some client.finish ≡ ended },
    ghost seat_is: { seat_pool seat ≡ client.plan.pool },
}

impl Caller {
    /// Attaches a buffer.
    pub fn attach<R: Wait>(
        &mut self,
        rt: &R,
        shared: &SessionShared,
        pool: &Pool,
        pages: u32,
    ) -> Option<Result<u16, AttachError>>
        requires shared { IsShared self.old.client.plan shared.now }
        requires pool { self.old.client.plan.pool ≡ pool_id pool.now }
        ensures shared { IsShared self.new.client.plan shared.now }
        ensures plan { self.new.client.plan ≡ self.old.client.plan }
    {
        if self.client.room() == 0 || pages == 0 || pages > 4096 {
            return None;
        }
        self.client.vouch();
        Some(self.client.attach(rt, shared, pool, &mut self.seat, pages))
    }

    /// Sends a record.
    pub fn send<R: Wait>(
        &mut self,
        rt: &R,
        shared: &SessionShared,
        request: &Request,
    ) -> Option<Result<u32, SendError>>
        requires shared { IsShared self.old.client.plan shared.now }
        ensures shared { IsShared self.new.client.plan shared.now }
        ensures plan { self.new.client.plan ≡ self.old.client.plan }
    {
        if self.client.room() == 0 || self.client.sent() >= self.records {
            return None;
        }
        Some(self.client.send(rt, shared, request.to_bytes()))
    }

    /// Receives an answer.
    pub fn receive<R: Wait>(&mut self, rt: &R, shared: &SessionShared) -> Option<Response>
        requires shared { IsShared self.old.client.plan shared.now }
        ensures shared { IsShared self.new.client.plan shared.now }
        ensures plan { self.new.client.plan ≡ self.old.client.plan }
    {
        if self.client.room() == 0 || self.client.received() == u32::MAX {
            return None;
        }
        self.client.recv(rt, shared)
    }

    /// Fills blocks of a buffer.
    pub fn fill<R: Wait>(
        &mut self,
        rt: &R,
        shared: &SessionShared,
        id: u16,
        block: u32,
        count: u32,
        byte: u8,
    ) -> Option<bool>
        requires shared { IsShared self.old.client.plan shared.now }
        ensures shared { IsShared self.new.client.plan shared.now }
        ensures plan { self.new.client.plan ≡ self.old.client.plan }
    {
        if self.client.room() == 0 || self.ended {
            return None;
        }
        Some(self.client.fill(rt, shared, id, block, count, byte))
    }

    /// Is shown blocks of a buffer. The bytes go into the log.
    pub fn show<R: Wait>(
        &mut self,
        rt: &R,
        alloc: Global,
        shared: &SessionShared,
        id: u16,
        block: u32,
        count: u16,
    ) -> Option<bool>
        requires shared { IsShared self.old.client.plan shared.now }
        ensures shared { IsShared self.new.client.plan shared.now }
        ensures plan { self.new.client.plan ≡ self.old.client.plan }
    {
        if self.client.room() == 0 || self.ended {
            return None;
        }
        let Ok(into) = Bytes::zeroed(alloc, count as u32 * 512) else {
            return None;
        };
        Some(self.client.show(rt, shared, id, block, count as u32, into))
    }

    /// Ends the session.
    pub fn finish<R: Wait>(&mut self, rt: &R, shared: &SessionShared, how: Finish) -> bool
        requires shared { IsShared self.old.client.plan shared.now }
        ensures shared { IsShared self.new.client.plan shared.now }
        ensures plan { self.new.client.plan ≡ self.old.client.plan }
    {
        if self.ended {
            return false;
        }
        self.client.finish(rt, shared, how);
        self.ended = true;
        true
    }

    /// Closes the session, if nothing is left to do.
    pub fn close<R: Wait>(&mut self, rt: &R, shared: &SessionShared, pool: &Pool) -> bool
        requires shared { IsShared self.old.client.plan shared.now }
        requires pool { self.old.client.plan.pool ≡ pool_id pool.now }
        ensures shared { IsShared self.new.client.plan shared.now }
        ensures plan { self.new.client.plan ≡ self.old.client.plan }
        ensures closed { result ≡ true → self.new.client.closed ≡ true }
    {
        if !self.ended {
            return false;
        }
        self.client.close_if_done(rt, shared, pool, &mut self.seat)
    }

    /// How many events may still be logged.
    pub fn room(&self) -> u64 {
        self.client.room()
    }

    /// How many answers were received.
    pub fn received(&self) -> u32 {
        self.client.received()
    }
}
