//! A client is served, and the server finished.
ghost use Rattle.std.specs.Prelude.{◌≡◌, ◌+◌, ◌≤◌, [], MatchResult};
ghost use Rattle.host_device.specs.Seen.{fixed_of, shape_of, steps_of};
ghost use Rattle.host_turn.specs.Seats.{opening_of};
ghost use Rattle.host_worker.specs.Servers.{keeps_of};
ghost use Rattle.serve_client.specs.Begun.{IsBegun};
ghost use Rattle.serve_client.specs.Served.{HasAttended, IsServed};

use crate::asking::ask_all;
use crate::begun::{Begun, begin};
use crate::load::Load;
use crate::outcome::Outcome;
use host_device::Device;
use host_gpt::Which;
use host_io::{Disk, Gate};
use host_report::Closing;
use host_worker::{Finished, NoServer, drain, gather};
use play_law::gathered_runs_are_lawful;
use std::alloc::Global;
use std::sync::Wait;

/// Serves a client until it has asked for all, and finishes the server. The report is there where
/// the device keeps its history; what is proved of sessions, steps and disk is the same where it
/// isn't.
pub fn serve<R: Wait, D: Disk, G: Gate>(
    rt: &R,
    alloc: Global,
    device: Device<D>,
    load: &Load,
    gate: &G,
) -> Result<Outcome<D>, NoServer<D>>
    requires device { ((steps_of device).items ≡ []) × ((shape_of device).size ≡ load.now.size)
        × ((shape_of device).blocks ≡ load.now.blocks) }
    requires range { load.now.range.first + load.now.range.count ≤ load.now.blocks }
    ensures { MatchResult result (λ done. IsServed device load.now done)
        (λ no. no.device ≡ device) }
{
    let begun = begin(alloc, device, load)?;
    let (finished, sent) = attend(rt, alloc, begun, load.records, gate);
    let closing = Closing::Cut;
    let (report, disk) = gather(finished, load.blocks, load.size, Which::Primary, closing);
    gathered_runs_are_lawful();
    Ok(Outcome { report, disk, sent })
}

// The client asks and drains, and the server is finished. It tells how many records were sent.
fn attend<R: Wait, D: Disk, G: Gate>(
    rt: &R,
    alloc: Global,
    begun: Begun<D>,
    records: u32,
    gate: &G,
) -> (Finished<D>, u32)
    requires { IsBegun records begun }
    ensures attended { HasAttended result.0.ends result.1 }
    ensures story { (result.0.ends.story ≡ (steps_of result.0.device).items)
        × (result.0.ends.size ≡ (shape_of result.0.device).size) }
    ensures device { fixed_of result.0.device ≡ fixed_of (opening_of begun.server.device) }
    ensures keeps { result.0.ends.keeps ≡ keeps_of begun.server }
{
    let Begun {
        server,
        mut client,
        mut hand,
        mut clients,
        mut hands,
    } = begun;
    ask_all(rt, alloc, &server, &mut client, &mut hand, gate, records);
    drain(rt, alloc, &server, &mut client, &mut hand, gate);
    let sent = client.sent();
    clients.push_reserved(client);
    hands.push_reserved(hand);
    (server.finish(clients, hands), sent)
}
