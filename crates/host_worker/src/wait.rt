//! A client that waits helps with the work.
ghost use Rattle.std.specs.Prelude.{◌≡◌, ◌+◌, ◌-◌, ◌<◌, ◌≤◌, length, nat_le, MatchOption, Ok};
ghost use Rattle.host_model.specs.Log.{received, sent};
ghost use Rattle.host_session.specs.Calls.{IsSendAnswer};
ghost use Rattle.host_session.specs.Client.{room_left};
ghost use Rattle.host_session.specs.Plan.{IsShared};
ghost use Rattle.host_worker.specs.Accounts.{HasWorked};
ghost use Rattle.host_worker.specs.Hands.{IsHandOf};
ghost use Rattle.host_worker.specs.Servers.{IsClientOf, IsServer, session_count};
ghost use Rattle.host_worker.specs.Turns.{IsOwnTold, begun_in, things_in};
ghost use Rattle.host_worker.specs.Waits.{HasReceived, HasAnswerRoom, HasSent, KeepsRoom};
ghost use Rattle.host_worker.specs.Waits.{KeepsRoomBut, MayWait};

use crate::hand::Hand;
use crate::round::{has_done, turn_at};
use crate::server::Server;
use crate::turned::Turn;
use host_io::{Disk, Gate};
use host_session::{ClientEnd, SessionShared};
use std::alloc::Global;
use std::sync::Wait;
use std::thread;

/// Sends a record of 32 bytes, and tells its index. While the ring is full it receives what is
/// there and takes turns.
pub fn send_through<R: Wait, D: Disk, G: Gate>(
    rt: &R,
    alloc: Global,
    server: &Server<D>,
    client: &mut ClientEnd,
    hand: &mut Hand<D>,
    gate: &G,
    bytes: [u8; 32],
) -> u32
    requires server { IsServer server.now }
    requires client { IsClientOf server.now client.old }
    requires hand { IsHandOf server.now hand.old }
    requires may { MayWait 1 client.old }
    requires records { length (sent client.old.log) < client.old.plan.spec.records }
    ensures hand { IsHandOf server.now hand.new }
    ensures worked { HasWorked hand.old hand.new }
    ensures sent { HasSent bytes result client.old client.new }
    ensures room { KeepsRoomBut 2 client.old client.new }
{
    let shared = session_of(server, client);
    for _ in rt.forever() {
        match index_sent(rt, shared, client, bytes) {
            Some(index) => return index,
            None => {
                help(rt, alloc, server, client, hand, gate);
            }
        }
    }
    unreachable!()
}

/// Receives answers until so many were received in all, and takes turns meanwhile.
pub fn wait_for<R: Wait, D: Disk, G: Gate>(
    rt: &R,
    alloc: Global,
    server: &Server<D>,
    client: &mut ClientEnd,
    hand: &mut Hand<D>,
    gate: &G,
    total: u32,
)
    requires server { IsServer server.now }
    requires client { IsClientOf server.now client.old }
    requires hand { IsHandOf server.now hand.old }
    requires may { MayWait 0 client.old }
    ensures hand { IsHandOf server.now hand.new }
    ensures worked { HasWorked hand.old hand.new }
    ensures received { HasReceived client.old client.new }
    ensures room { KeepsRoom client.old client.new }
    ensures total { total ≤ length (received client.new.log) }
{
    for _ in rt.forever() {
        if is_enough(client.received(), total) {
            return;
        }
        help(rt, alloc, server, client, hand, gate);
    }
    unreachable!()
}

// What a client shares with the hands.
pub(crate) fn session_of<'a, D: Disk>(
    server: &'a Server<D>,
    client: &ClientEnd,
) -> &'a SessionShared
    requires server { IsServer server.now }
    requires client { IsClientOf server.now client.now }
    ensures { IsShared client.now.plan result.now }
{
    server.session(client.number())
}

// Sends a record, and tells its index. There is none where it wasn't sent.
fn index_sent<R: Wait>(
    rt: &R,
    shared: &SessionShared,
    client: &mut ClientEnd,
    bytes: [u8; 32],
) -> Option<u32>
    requires shared { IsShared client.old.plan shared.now }
    requires records { length (sent client.old.log) < client.old.plan.spec.records }
    requires room { 1 ≤ room_left client.old }
    ensures { MatchOption result (client.new ≡ client.old)
        (λ index. IsSendAnswer bytes client.old client.new (Ok index)) }
{
    match client.send(rt, shared, bytes) {
        Ok(index) => Some(index),
        Err(_) => None,
    }
}

// Whether so many answers are as many as are waited for.
fn is_enough(received: u32, total: u32) -> bool
    ensures { result ≡ nat_le total received }
{
    received >= total
}

// Receives what is there, and takes a turn, which begins at the client's own session. Where nothing
// was done, it tells why no record could be taken there, of all that the client had sent.
pub(crate) fn help<R: Wait, D: Disk, G: Gate>(
    rt: &R,
    alloc: Global,
    server: &Server<D>,
    client: &mut ClientEnd,
    hand: &mut Hand<D>,
    gate: &G,
) -> Turn
    requires server { IsServer server.now }
    requires client { IsClientOf server.now client.old }
    requires hand { IsHandOf server.now hand.old }
    requires room { HasAnswerRoom 0 client.old }
    ensures hand { IsHandOf server.now hand.new }
    ensures worked { HasWorked hand.old hand.new }
    ensures received { HasReceived client.old client.new }
    ensures room { KeepsRoom client.old client.new }
    ensures once { begun_in hand.new ≡ begun_in hand.old + things_in result }
    ensures told { IsOwnTold (client.new.plan.spec.number - 1) (length (sent client.new.log))
        hand.new result }
{
    let shared = session_of(server, client);
    receive(rt, shared, client);
    let place = place_of(server, client);
    let note = client.tell();
    let turn = turn_at(rt, alloc, server, hand, gate, place, note);
    pause_after(turn);
    turn
}

// Lets other threads run where a turn did nothing.
fn pause_after(turn: Turn) {
    if !has_done(turn) {
        thread::yield_now();
    }
}

// At which place the client's session stands.
fn place_of<D: Disk>(server: &Server<D>, client: &ClientEnd) -> usize
    requires server { IsServer server.now }
    requires client { IsClientOf server.now client.now }
    ensures place { result ≡ client.now.plan.spec.number - 1 }
    ensures there { result < session_count server.now }
{
    let _server = server;
    client.number() as usize - 1
}

// Receives what is there.
fn receive<R: Wait>(rt: &R, shared: &SessionShared, client: &mut ClientEnd)
    requires shared { IsShared client.old.plan shared.now }
    requires room { HasAnswerRoom 0 client.old }
    ensures received { HasReceived client.old client.new }
    ensures room { KeepsRoom client.old client.new }
{
    for _ in rt.forever() {
        if client.received() >= client.owed() {
            return;
        }
        if client.recv(rt, shared).is_none() {
            return;
        }
    }
    unreachable!()
}
