//! A client plays its part of a session.
ghost use Rattle.std.specs.Prelude.{◌≡◌, true};
ghost use Rattle.host_frames.specs.Seats.{pool_id};
ghost use Rattle.host_session.specs.Plan.{IsShared};

use crate::caller::Caller;
use crate::deed::Deed;
use host_frames::Pool;
use host_record::{Finish, Request};
use host_session::{SendError, SessionShared};
use std::alloc::Global;
use std::sync::Wait;
use std::thread;

/// The client does these things, one after the other, and ends the session so. It waits until the
/// session is closed.
pub fn play<R: Wait>(
    rt: &R,
    alloc: Global,
    shared: &SessionShared,
    pool: &Pool,
    mut caller: Caller,
    deeds: &[Deed],
    how: Finish,
) -> Caller
    requires shared { IsShared caller.client.plan shared.now }
    requires pool { caller.client.plan.pool ≡ pool_id pool.now }
    ensures shared { IsShared result.client.plan shared.now }
    ensures plan { result.client.plan ≡ caller.client.plan }
    ensures closed { result.client.closed ≡ true }
{
    do_all(rt, alloc, shared, pool, &mut caller, deeds);
    caller.finish(rt, shared, how);
    close(rt, shared, pool, &mut caller);
    caller
}

fn do_all<R: Wait>(
    rt: &R,
    alloc: Global,
    shared: &SessionShared,
    pool: &Pool,
    caller: &mut Caller,
    deeds: &[Deed],
)
    requires shared { IsShared caller.old.client.plan shared.now }
    requires pool { caller.old.client.plan.pool ≡ pool_id pool.now }
    ensures shared { IsShared caller.new.client.plan shared.now }
    ensures plan { caller.new.client.plan ≡ caller.old.client.plan }
{
    for deed in deeds {
        perform(rt, alloc, shared, pool, caller, deed);
    }
}

fn perform<R: Wait>(
    rt: &R,
    alloc: Global,
    shared: &SessionShared,
    pool: &Pool,
    caller: &mut Caller,
    deed: &Deed,
)
    requires shared { IsShared caller.old.client.plan shared.now }
    requires pool { caller.old.client.plan.pool ≡ pool_id pool.now }
    ensures shared { IsShared caller.new.client.plan shared.now }
    ensures plan { caller.new.client.plan ≡ caller.old.client.plan }
{
    match *deed {
        Deed::Attach(pages) => {
            caller.attach(rt, shared, pool, pages);
        }
        Deed::Fill {
            id,
            block,
            count,
            byte,
        } => {
            caller.fill(rt, shared, id, block, count, byte);
        }
        Deed::Show { id, block, count } => {
            caller.show(rt, alloc, shared, id, block, count);
        }
        Deed::Send(request) => send(rt, shared, caller, &request),
        Deed::Await(count) => await_answers(rt, shared, caller, count),
    }
}

// Sends a record. Where it comes back, an answer is received and it is tried again.
fn send<R: Wait>(rt: &R, shared: &SessionShared, caller: &mut Caller, request: &Request)
    requires shared { IsShared caller.old.client.plan shared.now }
    ensures shared { IsShared caller.new.client.plan shared.now }
    ensures plan { caller.new.client.plan ≡ caller.old.client.plan }
{
    for _ in rt.forever() {
        let Some(Err(SendError::Full)) = caller.send(rt, shared, request) else {
            return;
        };
        caller.receive(rt, shared);
        thread::yield_now();
    }
    unreachable!()
}

// Receives answers until there were so many.
fn await_answers<R: Wait>(rt: &R, shared: &SessionShared, caller: &mut Caller, count: u32)
    requires shared { IsShared caller.old.client.plan shared.now }
    ensures shared { IsShared caller.new.client.plan shared.now }
    ensures plan { caller.new.client.plan ≡ caller.old.client.plan }
{
    for _ in rt.forever() {
        if caller.received() >= count {
            return;
        }
        caller.receive(rt, shared);
        thread::yield_now();
    }
    unreachable!()
}

// Receives answers until the session can be closed.
fn close<R: Wait>(rt: &R, shared: &SessionShared, pool: &Pool, caller: &mut Caller)
    requires shared { IsShared caller.old.client.plan shared.now }
    requires pool { caller.old.client.plan.pool ≡ pool_id pool.now }
    ensures shared { IsShared caller.new.client.plan shared.now }
    ensures plan { caller.new.client.plan ≡ caller.old.client.plan }
    ensures closed { caller.new.client.closed ≡ true }
{
    for _ in rt.forever() {
        if caller.close(rt, shared, pool) {
            return;
        }
        caller.receive(rt, shared);
        thread::yield_now();
    }
    unreachable!()
}
