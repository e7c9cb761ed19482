//! A client ends its session.
ghost use Rattle.host_record.specs.declared.finish.Finish.TheVariants.{Abort, Drain};
ghost use Rattle.host_worker.specs.Hands.{IsHandOf};
ghost use Rattle.host_worker.specs.Servers.{IsClientOf, IsServer};
ghost use Rattle.host_worker.specs.Waits.{MayWait};
ghost use Rattle.host_play.specs.Calls.{HasClosedClient, HasHelped};

use host_io::{Disk, Gate};
use host_record::Finish;
use host_session::ClientEnd;
use host_worker::{Hand, Server, abort, drain};
use std::alloc::Global;
use std::sync::Wait;

/// Ends the session, and helps until it is closed.
pub fn end_session<R: Wait, D: Disk, G: Gate>(
    rt: &R,
    alloc: Global,
    server: &Server<D>,
    client: &mut ClientEnd,
    hand: &mut Hand<D>,
    gate: &G,
    finish: Finish,
)
    requires server { IsServer server.now }
    requires client { IsClientOf server.now client.old }
    requires hand { IsHandOf server.now hand.old }
    requires may { MayWait 0 client.old }
    ensures closed { HasClosedClient finish client.old client.new }
    ensures helped { HasHelped server.now hand.old hand.new client.old client.new }
{
    match finish {
        Finish::Drain => drain_session(rt, alloc, server, client, hand, gate),
        Finish::Abort => abort_session(rt, alloc, server, client, hand, gate),
    }
}

// Receives all answers first.
fn drain_session<R: Wait, D: Disk, G: Gate>(
    rt: &R,
    alloc: Global,
    server: &Server<D>,
    client: &mut ClientEnd,
    hand: &mut Hand<D>,
    gate: &G,
)
    requires server { IsServer server.now }
    requires client { IsClientOf server.now client.old }
    requires hand { IsHandOf server.now hand.old }
    requires may { MayWait 0 client.old }
    ensures closed { HasClosedClient Drain client.old client.new }
    ensures helped { HasHelped server.now hand.old hand.new client.old client.new }
{
    drain(rt, alloc, server, client, hand, gate);
}

// Receives no more.
fn abort_session<R: Wait, D: Disk, G: Gate>(
    rt: &R,
    alloc: Global,
    server: &Server<D>,
    client: &mut ClientEnd,
    hand: &mut Hand<D>,
    gate: &G,
)
    requires server { IsServer server.now }
    requires client { IsClientOf server.now client.old }
    requires hand { IsHandOf server.now hand.old }
    requires may { MayWait 0 client.old }
    ensures closed { HasClosedClient Abort client.old client.new }
    ensures helped { HasHelped server.now hand.old hand.new client.old client.new }
{
    abort(rt, alloc, server, client, hand, gate);
}
