//! A session on one thread: its client, one hand, and the pool of its pages.
ghost use Rattle.std.specs.Prelude.{◌≡◌, true};
ghost use Rattle.host_frames.specs.Seats.{pool_id, seat_pool};
ghost use Rattle.host_group.specs.Seats.{cells_id};
ghost use Rattle.host_session.specs.Plan.{IsHand, IsShared};
ghost use Rattle.host_turn.specs.Seats.{seen_by};
ghost use Rattle.session_client.specs.declared.task.Task.{Task};
ghost use Rattle.session_client.specs.Tasks.{IsTakenToDo, IsToDo};

use crate::caller::Caller;
use crate::judge::Judge;
use crate::landing::land;
use crate::round::{Visit, go_round};
use crate::taking::take;
use crate::task::{Taken, Task};
use host_frames::{Pool, PoolSeat};
use host_record::{Finish, Request, Response};
use host_session::{AttachError, SendError, SessionHand, SessionShared};
use std::alloc::Global;
use std::sync::Wait;

/// A session with its client, one hand, and the pool of its pages, at which each has a seat.
#[derive(Drop)]
pub struct Desk {
    pub(crate) pool: Pool,
    pub(crate) shared: SessionShared,
    pub(crate) caller: Caller,
    pub(crate) hand: SessionHand,
    pub(crate) hand_seat: PoolSeat,
    ghost shared_is: { IsShared caller.client.plan shared },
    ghost hand_is: { IsHand caller.client.plan 0 hand },
    ghost one: { caller.client.plan.hands ≡ 1 },
    ghost pool_is: { caller.client.plan.pool ≡ pool_id pool },
    ghost hand_pool: { seat_pool hand_seat ≡ pool_id pool },
}

#[tactic(auto, using(crate::proofs::Hands::hand_stays))]
impl Desk {
    /// The client attaches a buffer.
    pub fn attach<R: Wait>(&mut self, rt: &R, pages: u32) -> Option<Result<u16, AttachError>>
        ensures hand { (self.new.hand ≡ self.old.hand) × (self.new.shared ≡ self.old.shared) }
    {
        self.caller.attach(rt, &self.shared, &self.pool, pages)
    }

    /// The client sends a record.
    pub fn send<R: Wait>(&mut self, rt: &R, request: &Request) -> Option<Result<u32, SendError>>
        ensures hand { (self.new.hand ≡ self.old.hand) × (self.new.shared ≡ self.old.shared) }
    {
        self.caller.send(rt, &self.shared, request)
    }

    /// The client receives an answer.
    pub fn receive<R: Wait>(&mut self, rt: &R) -> Option<Response>
        ensures hand { (self.new.hand ≡ self.old.hand) × (self.new.shared ≡ self.old.shared) }
    {
        self.caller.receive(rt, &self.shared)
    }

    /// The client fills blocks of a buffer.
    pub fn fill<R: Wait>(
        &mut self,
        rt: &R,
        id: u16,
        block: u32,
        count: u32,
        byte: u8,
    ) -> Option<bool>
        ensures hand { (self.new.hand ≡ self.old.hand) × (self.new.shared ≡ self.old.shared) }
    {
        self.caller.fill(rt, &self.shared, id, block, count, byte)
    }

    /// The client is shown blocks of a buffer.
    pub fn show<R: Wait>(
        &mut self,
        rt: &R,
        alloc: Global,
        id: u16,
        block: u32,
        count: u16,
    ) -> Option<bool>
        ensures hand { (self.new.hand ≡ self.old.hand) × (self.new.shared ≡ self.old.shared) }
    {
        self.caller.show(rt, alloc, &self.shared, id, block, count)
    }

    /// The client ends the session.
    pub fn finish<R: Wait>(&mut self, rt: &R, how: Finish) -> bool
        ensures hand { (self.new.hand ≡ self.old.hand) × (self.new.shared ≡ self.old.shared) }
    {
        self.caller.finish(rt, &self.shared, how)
    }

    /// The client closes the session, if nothing is left to do.
    pub fn close<R: Wait>(&mut self, rt: &R) -> bool
        ensures hand { (self.new.hand ≡ self.old.hand) × (self.new.shared ≡ self.old.shared) }
        ensures closed { result ≡ true → self.new.caller.client.closed ≡ true }
    {
        self.caller.close(rt, &self.shared, &self.pool)
    }

    /// The hand takes the next record.
    pub fn take<R: Wait>(&mut self, rt: &R) -> Taken
        ensures shared { self.new.shared ≡ self.old.shared }
        ensures task { IsTakenToDo (cells_id self.new.shared.cells) 0 (seen_by self.new.hand.intake)
            result }
        ensures still { (task : Task)
            → IsToDo (cells_id self.old.shared.cells) 0 (seen_by self.old.hand.intake) task
            → IsToDo (cells_id self.new.shared.cells) 0 (seen_by self.new.hand.intake) task }
    {
        take(
            rt,
            &self.shared,
            &self.pool,
            &mut self.hand,
            &mut self.hand_seat,
            0,
        )
    }

    /// The hand ends a record.
    pub fn land<R: Wait>(&mut self, rt: &R, task: Task) -> bool
        requires { IsToDo (cells_id self.old.shared.cells) 0 (seen_by self.old.hand.intake) task }
        ensures { self.new.shared ≡ self.old.shared }
    {
        land(rt, &self.shared, &self.pool, &mut self.hand, 0, task)
    }

    /// One round of the hand.
    pub fn visit<R: Wait>(&mut self, rt: &R) -> Visit
        ensures { self.new.shared ≡ self.old.shared }
    {
        go_round(
            rt,
            &self.shared,
            &self.pool,
            &mut self.hand,
            &mut self.hand_seat,
            0,
            &mut Judge::Intake,
        )
    }

    /// How many events the client may still log.
    pub fn room(&self) -> u64 {
        self.caller.room()
    }
}
