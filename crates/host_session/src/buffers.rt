//! What a client does with its buffers.
ghost use Rattle.std.specs.Prelude.{◌≡◌, ◌⊎◌, ◌+◌, ◌*◌, ◌<◌, ◌≤◌, [], ◌∷◌, ◌++◌, false, length};
ghost use Rattle.std.specs.Prelude.{IsTrue, None, Some};
ghost use Rattle.host_frames.specs.Seats.{contents, frame_count, pool_id, seat_pool};
ghost use Rattle.host_memory.specs.Entries.{used_room};
ghost use Rattle.host_memory.specs.Held.{has_blocks};
ghost use Rattle.host_memory.specs.State.{client_of, history, block_size_of};
ghost use Rattle.host_model.specs.declared.memory.MemEvent.TheVariants.{Show};
ghost use Rattle.host_model.specs.Log.{given};
ghost use Rattle.host_model.specs.declared.event.Event.TheVariants.{NotAttached};
ghost use Rattle.host_model.specs.Pages.{found_by};
ghost use Rattle.host_model.specs.Taking.{runs_out_rightly};
ghost use Rattle.host_log.specs.History.{Adds};
ghost use Rattle.host_session.specs.Calls.{IsAttachAnswer, HasAttachedBuffer, IsBlank};
ghost use Rattle.host_session.specs.Calls.{IsClaimAnswer, IsFilled, IsShown, with_event};
ghost use Rattle.host_session.specs.Client.{room_left};
ghost use Rattle.host_session.specs.Plan.{IsItsPool, IsShared, id_limit};

use crate::client::ClientEnd;
use crate::shared::SessionShared;
use host_block::Bytes;
use host_frames::{NoFrames, Pages, Pool, PoolSeat};
use host_memory::Memory;
use host_model::{AttachError, Event};
use host_turn::Story;
use std::alloc::Global;
use std::sync::Wait;

// How many ids a session gives at most.
const MOST_IDS: u32 = 65535;

impl ClientEnd {
    /// Attaches a buffer of so many blank pages, and tells its id.
    pub fn attach<R: Wait>(
        &mut self,
        rt: &R,
        shared: &SessionShared,
        pool: &Pool,
        seat: &mut PoolSeat,
        pages: u32,
    ) -> Result<u16, AttachError>
        requires shared { IsShared self.old.plan shared.now }
        requires pool { IsItsPool self.old.plan pool.now seat.old }
        requires pages { (1 ≤ pages) × (pages ≤ 4096) }
        requires ids { (length (given self.old.log) < self.old.plan.spec.attaches)
            ⊎ (length (given self.old.log) ≡ 65535) }
        requires room { 1 ≤ room_left self.old }
        ensures { IsAttachAnswer (frame_count pool.now) pages self.old self.new seat.old seat.new
            result }
    {
        if self.finish.is_some() {
            return Err(AttachError::Closed);
        }
        if self.given == MOST_IDS {
            return Err(self.refuse(pages, AttachError::NoIds));
        }
        match claim_pages(self.alloc, pool, seat, pages) {
            Ok(claimed) => Ok(self.attach_pages(rt, shared, claimed)),
            Err(cause) => Err(self.refuse(pages, cause)),
        }
    }

    // Logs that no buffer was attached.
    fn refuse(&mut self, pages: u32, cause: AttachError) -> AttachError
        requires open { self.old.finish ≡ None }
        requires rightly { IsTrue (runs_out_rightly self.old.log (NotAttached pages cause)) }
        requires room { 1 ≤ room_left self.old }
        ensures cause { result ≡ cause }
        ensures left { self.new ≡ with_event self.old (NotAttached pages cause) }
    {
        self.log.push(Event::NotAttached { pages, cause });
        cause
    }

    /// Writes one value into all bytes of these blocks. False where the buffer has no pages, or not
    /// all of these.
    pub fn fill<R: Wait>(
        &mut self,
        rt: &R,
        shared: &SessionShared,
        id: u16,
        block: u32,
        count: u32,
        byte: u8,
    ) -> bool
        requires shared { IsShared self.old.plan shared.now }
        requires open { self.old.finish ≡ None }
        requires room { 1 ≤ room_left self.old }
        ensures { IsFilled id block count byte self.old self.new result }
    {
        let mut memory = shared
            .memory
            .enter_past(rt, &mut self.memory_seat, self.fronts.memory);
        memory.vouch();
        let done = memory.fill(id, block, count, byte);
        self.fronts.memory = memory.length();
        shared.memory.leave(&mut self.memory_seat, memory);
        self.log.push(Event::Filled {
            id,
            block,
            count,
            byte,
            done,
        });
        done
    }

    /// Copies these blocks into `into`, which goes into the log. False where the buffer has no
    /// pages, or not all of these.
    pub fn show<R: Wait>(
        &mut self,
        rt: &R,
        shared: &SessionShared,
        id: u16,
        block: u32,
        count: u32,
        into: Bytes,
    ) -> bool
        requires shared { IsShared self.old.plan shared.now }
        requires open { self.old.finish ≡ None }
        requires into { length into ≡ count * self.old.plan.spec.size }
        requires room { 1 ≤ room_left self.old }
        ensures { IsShown id block count self.old self.new result }
    {
        let mut memory = shared
            .memory
            .enter_past(rt, &mut self.memory_seat, self.fronts.memory);
        memory.vouch();
        let (done, bytes) = show_in(&mut memory, self.alloc, id, block, count, into);
        self.fronts.memory = memory.length();
        shared.memory.leave(&mut self.memory_seat, memory);
        self.log.push(Event::Shown {
            id,
            block,
            count,
            done,
            bytes,
        });
        done
    }

    // The buffer that has these pages is attached.
    fn attach_pages<R: Wait>(&mut self, rt: &R, shared: &SessionShared, claimed: Pages) -> u16
        requires shared { IsShared self.old.plan shared.now }
        requires open { self.old.finish ≡ None }
        requires ids { length (given self.old.log) < id_limit self.old.plan.spec }
        requires room { 1 ≤ room_left self.old }
        requires blank { IsBlank self.old.plan.pool claimed }
        ensures { HasAttachedBuffer (length (contents claimed)) result self.old self.new }
    {
        let pages = claimed.len();
        let mut memory = shared
            .memory
            .enter_past(rt, &mut self.memory_seat, self.fronts.memory);
        memory.vouch();
        let id = memory.attach(claimed, self.sent);
        self.fronts.memory = memory.length();
        shared.memory.leave(&mut self.memory_seat, memory);
        self.given += 1;
        self.log.push(Event::Attached { pages, id });
        id
    }
}

// Copies these blocks into `bytes`, and tells whether it did. Where it didn't, there are none.
fn show_in(
    memory: &mut Memory,
    alloc: Global,
    id: u16,
    block: u32,
    count: u32,
    mut bytes: Bytes,
) -> (bool, Bytes)
    requires room { used_room (history memory.old) + 1 ≤ memory.old.plan.limits.room }
    requires into { length bytes ≡ count * block_size_of memory.old }
    ensures answer { result.0 ≡ has_blocks id (history memory.old) block count }
    ensures found { IsTrue result.0
        → found_by (block_size_of memory.old) (history memory.old) (Show id block count)
        ≡ Some result.1 }
    ensures none { result.0 ≡ false → result.1 ≡ [] }
    ensures done { IsTrue result.0
        → memory.new
        ≡ record memory.old {
          entries = memory.old.entries
              ++ record { hand = client_of memory.old; what = Show id block count } ∷ [];
        } }
    ensures not_done { result.0 ≡ false → memory.new ≡ memory.old }
    ensures adds { Adds (λ e. e.hand) (client_of memory.old) memory.old.entries memory.new.entries }
{
    if memory.show(id, block, count, bytes.as_mut_slice()) {
        (true, bytes)
    } else {
        (false, Bytes::empty(alloc))
    }
}

// So many blank pages of the pool.
fn claim_pages(
    alloc: Global,
    pool: &Pool,
    seat: &mut PoolSeat,
    pages: u32,
) -> Result<Pages, AttachError>
    requires seat { seat_pool seat.old ≡ pool_id pool.now }
    ensures { IsClaimAnswer (frame_count pool.now) (pool_id pool.now) pages seat.old seat.new
        result }
{
    let Ok(mut claimed) = Pages::with_room(alloc, pages) else {
        return Err(AttachError::Oom);
    };
    match pool.claim(seat, pages, &mut claimed) {
        Ok(()) => Ok(claimed),
        Err(NoFrames) => Err(AttachError::NoFrames),
    }
}
