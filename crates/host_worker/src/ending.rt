//! A client ends its session, and helps until it is closed.
ghost use Rattle.std.specs.Prelude.{◌≡◌, IsSome};
ghost use Rattle.host_session.specs.Closing.{IsCloseAnswer};
ghost use Rattle.host_worker.specs.Accounts.{HaveWorked};
ghost use Rattle.host_worker.specs.Hands.{IsHandOf, with_pool_seat};
ghost use Rattle.host_worker.specs.Servers.{IsClientOf, IsServer};
ghost use Rattle.host_worker.specs.Waits.{HasAborted, HasDrained, MayWait};

use crate::hand::Hand;
use crate::round::turn;
use crate::server::Server;
use crate::wait::{help, session_of};
use host_io::{Disk, Gate};
use host_record::Finish;
use host_session::ClientEnd;
use std::alloc::Global;
use std::sync::Wait;
use std::thread;

/// Ends the session by a drain: all that was sent is taken and answered, and every answer received,
/// until it is closed.
pub fn drain<R: Wait, D: Disk, G: Gate>(
    rt: &R,
    alloc: Global,
    server: &Server<D>,
    client: &mut ClientEnd,
    hand: &mut Hand<D>,
    gate: &G,
)
    requires server { IsServer server.now }
    requires client { IsClientOf server.now client.old }
    requires hand { IsHandOf server.now hand.old }
    requires may { MayWait 0 client.old }
    ensures hand { IsHandOf server.now hand.new }
    ensures worked { HaveWorked hand.old hand.new client.old client.new }
    ensures drained { HasDrained client.old client.new }
{
    let shared = session_of(server, client);
    client.vouch();
    client.finish(rt, shared, Finish::Drain);
    for _ in rt.forever() {
        if close(rt, server, client, hand) {
            return;
        }
        help(rt, alloc, server, client, hand, gate);
    }
    unreachable!()
}

/// Ends the session by an abort: no more is taken and nothing received, until it is closed.
pub fn abort<R: Wait, D: Disk, G: Gate>(
    rt: &R,
    alloc: Global,
    server: &Server<D>,
    client: &mut ClientEnd,
    hand: &mut Hand<D>,
    gate: &G,
)
    requires server { IsServer server.now }
    requires client { IsClientOf server.now client.old }
    requires hand { IsHandOf server.now hand.old }
    requires may { MayWait 0 client.old }
    ensures hand { IsHandOf server.now hand.new }
    ensures worked { HaveWorked hand.old hand.new client.old client.new }
    ensures aborted { HasAborted client.old client.new }
{
    let shared = session_of(server, client);
    client.vouch();
    client.finish(rt, shared, Finish::Abort);
    for _ in rt.forever() {
        if close(rt, server, client, hand) {
            return;
        }
        turn(rt, alloc, server, hand, gate);
        thread::yield_now();
    }
    unreachable!()
}

// Closes the session if nothing is left to do, and tells whether it is closed.
fn close<R: Wait, D: Disk>(
    rt: &R,
    server: &Server<D>,
    client: &mut ClientEnd,
    hand: &mut Hand<D>,
) -> bool
    requires server { IsServer server.now }
    requires client { IsClientOf server.now client.old }
    requires hand { IsHandOf server.now hand.old }
    requires ended { IsSome client.old.finish }
    ensures hand { hand.new ≡ with_pool_seat hand.old hand.new.pool_seat }
    ensures answer { IsCloseAnswer client.old client.new hand.old.pool_seat hand.new.pool_seat
        result }
    ensures worked { HaveWorked hand.old hand.new client.old client.new }
{
    let shared = session_of(server, client);
    client.vouch();
    client.close_if_done(rt, shared, &server.pool, &mut hand.pool_seat)
}
