//! A client asks, record after record, and waits for each answer.
ghost use Rattle.std.specs.Prelude.{◌≡◌, ◌<◌, length, IsTrue};
ghost use Rattle.host_model.specs.Log.{sent};
ghost use Rattle.host_worker.specs.Hands.{IsHandOf};
ghost use Rattle.host_worker.specs.Servers.{IsClientOf, IsServer};
ghost use Rattle.host_worker.specs.Waits.{HasAnswerRoom, MayWait};
ghost use Rattle.host_play.specs.Calls.{HasHelped};

use host_io::{Disk, Gate};
use host_record::Request;
use host_session::ClientEnd;
use host_worker::{Hand, Server, send_through, wait_for};
use std::alloc::Global;
use std::sync::Wait;

/// Sends so many records, as long as there is room for one more, and waits for the answer to each.
pub fn ask_all<R: Wait, D: Disk, G: Gate>(
    rt: &R,
    alloc: Global,
    server: &Server<D>,
    client: &mut ClientEnd,
    hand: &mut Hand<D>,
    gate: &G,
    records: u32,
)
    requires server { IsServer server.now }
    requires client { IsClientOf server.now client.old }
    requires hand { IsHandOf server.now hand.old }
    requires may { MayWait 0 client.old }
    requires records { client.old.plan.spec.records ≡ records }
    ensures plan { client.new.plan ≡ client.old.plan }
    ensures may { MayWait 0 client.new }
    ensures helped { HasHelped server.now hand.old hand.new client.old client.new }
{
    for n in 0..records {
        if !may_ask(client, records) {
            return;
        }
        ask(rt, alloc, server, client, hand, gate, bytes_of(n));
    }
}

// Whether there is room for one record more, and for its answer.
fn may_ask(client: &ClientEnd, records: u32) -> bool
    ensures room { IsTrue result → HasAnswerRoom 2 client.now }
    ensures records { IsTrue result → length (sent client.now.log) < records }
{
    let flying = client.sent().saturating_sub(client.received()) as u64;
    client.sent() < records && flying + 2 <= client.room()
}

// Sends a record, and waits until all answers that are owed were received.
fn ask<R: Wait, D: Disk, G: Gate>(
    rt: &R,
    alloc: Global,
    server: &Server<D>,
    client: &mut ClientEnd,
    hand: &mut Hand<D>,
    gate: &G,
    bytes: [u8; 32],
)
    requires server { IsServer server.now }
    requires client { IsClientOf server.now client.old }
    requires hand { IsHandOf server.now hand.old }
    requires may { MayWait 2 client.old }
    requires records { length (sent client.old.log) < client.old.plan.spec.records }
    ensures plan { client.new.plan ≡ client.old.plan }
    ensures may { MayWait 0 client.new }
    ensures helped { HasHelped server.now hand.old hand.new client.old client.new }
{
    send_through(rt, alloc, server, client, hand, gate, bytes);
    let all = client.owed();
    wait_for(rt, alloc, server, client, hand, gate, all);
}

// The bytes of a trim of one block, or of a flush, by turns.
fn bytes_of(number: u32) -> [u8; 32] {
    let is_trim = number % 2 == 0;
    let request = Request {
        command: if is_trim { 4 } else { 3 },
        reqid: number,
        group: 0,
        vmoid: 0,
        length: if is_trim { 1 } else { 0 },
        vmo_offset: 0,
        dev_offset: if is_trim { (number % 30) as u64 } else { 0 },
    };
    request.to_bytes()
}
