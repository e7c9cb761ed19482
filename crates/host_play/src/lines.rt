//! A client plays its lines.
ghost use Rattle.std.specs.Prelude.{◌≡◌, ◌*◌, ◌≤◌, length};
ghost use Rattle.host_worker.specs.Hands.{IsHandOf};
ghost use Rattle.host_worker.specs.Servers.{IsClientOf, IsServer};
ghost use Rattle.script_model.specs.declared.script.ScriptLine.TheVariants.{Attach, Fill, Send};
ghost use Rattle.script_model.specs.declared.script.ScriptLine.TheVariants.{Show, WaitAll, WaitFor};
ghost use Rattle.host_play.specs.Calls.{HasDone, HasHelped, IsAsBefore, MayPlay};

use host_block::Bytes;
use host_io::{Disk, Gate};
use host_session::ClientEnd;
use host_worker::{Hand, Server, send_through, wait_for};
use std::alloc::Global;
use std::sync::Wait;

/// Attaches a buffer, if there are pages, memory and an id for it.
pub fn attach<R: Wait, D: Disk>(
    rt: &R,
    server: &Server<D>,
    client: &mut ClientEnd,
    hand: &mut Hand<D>,
    pages: u32,
)
    requires server { IsServer server.now }
    requires client { IsClientOf server.now client.old }
    requires hand { IsHandOf server.now hand.old }
    requires may { MayPlay (Attach pages) client.old }
    requires pages { (1 ≤ pages) × (pages ≤ 4096) }
    ensures done { HasDone (Attach pages) client.old client.new }
    ensures helped { HasHelped server.now hand.old hand.new client.old client.new }
{
    client.vouch();
    let shared = server.session(client.number());
    let _ = client.attach(rt, shared, server.pool(), hand.pool_seat(), pages);
    client.vouch();
}

/// Fills blocks of a buffer.
pub fn fill<R: Wait, D: Disk>(
    rt: &R,
    server: &Server<D>,
    client: &mut ClientEnd,
    id: u16,
    block: u32,
    count: u32,
    byte: u8,
)
    requires server { IsServer server.now }
    requires client { IsClientOf server.now client.old }
    requires may { MayPlay (Fill id block count byte) client.old }
    ensures done { HasDone (Fill id block count byte) client.old client.new }
    ensures account { IsAsBefore client.old client.new }
{
    client.vouch();
    let shared = server.session(client.number());
    client.fill(rt, shared, id, block, count, byte);
    client.vouch();
}

/// Shows blocks of a buffer in a piece that is as long as they are.
pub fn show<R: Wait, D: Disk>(
    rt: &R,
    server: &Server<D>,
    client: &mut ClientEnd,
    id: u16,
    block: u32,
    count: u32,
    into: Bytes,
)
    requires server { IsServer server.now }
    requires client { IsClientOf server.now client.old }
    requires may { MayPlay (Show id block count) client.old }
    requires into { length into ≡ count * client.old.plan.spec.size }
    ensures done { HasDone (Show id block count) client.old client.new }
    ensures account { IsAsBefore client.old client.new }
{
    client.vouch();
    let shared = server.session(client.number());
    client.show(rt, shared, id, block, count, into);
    client.vouch();
}

/// Sends a record.
pub fn send<R: Wait, D: Disk, G: Gate>(
    rt: &R,
    alloc: Global,
    server: &Server<D>,
    client: &mut ClientEnd,
    hand: &mut Hand<D>,
    gate: &G,
    bytes: [u8; 32],
)
    requires server { IsServer server.now }
    requires client { IsClientOf server.now client.old }
    requires hand { IsHandOf server.now hand.old }
    requires may { MayPlay (Send bytes) client.old }
    ensures done { HasDone (Send bytes) client.old client.new }
    ensures helped { HasHelped server.now hand.old hand.new client.old client.new }
{
    send_through(rt, alloc, server, client, hand, gate, bytes);
}

/// Waits until every answer that is owed was received.
pub fn wait_all<R: Wait, D: Disk, G: Gate>(
    rt: &R,
    alloc: Global,
    server: &Server<D>,
    client: &mut ClientEnd,
    hand: &mut Hand<D>,
    gate: &G,
)
    requires server { IsServer server.now }
    requires client { IsClientOf server.now client.old }
    requires hand { IsHandOf server.now hand.old }
    requires may { MayPlay WaitAll client.old }
    ensures done { HasDone WaitAll client.old client.new }
    ensures helped { HasHelped server.now hand.old hand.new client.old client.new }
{
    let all = client.owed();
    wait_for(rt, alloc, server, client, hand, gate, all);
}

/// Waits until so many answers were received in all.
pub fn wait_for_some<R: Wait, D: Disk, G: Gate>(
    rt: &R,
    alloc: Global,
    server: &Server<D>,
    client: &mut ClientEnd,
    hand: &mut Hand<D>,
    gate: &G,
    total: u32,
)
    requires server { IsServer server.now }
    requires client { IsClientOf server.now client.old }
    requires hand { IsHandOf server.now hand.old }
    requires may { MayPlay (WaitFor total) client.old }
    ensures done { HasDone (WaitFor total) client.old client.new }
    ensures helped { HasHelped server.now hand.old hand.new client.old client.new }
{
    wait_for(rt, alloc, server, client, hand, gate, total);
}
