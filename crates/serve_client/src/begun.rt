//! A server with one client and one hand.
ghost use Rattle.std.specs.Prelude.{◌≡◌, ◌+◌, ◌≤◌, [], ◌∷◌, MatchResult, IfOk, vec_capacity};
ghost use Rattle.std.specs.Prelude.{vec_len};
ghost use Rattle.host_device.specs.Seen.{shape_of, steps_of};
ghost use Rattle.serve_client.specs.Begun.{IsBegunOver, spec_for};

use crate::load::Load;
use host_block::Oom;
use host_device::Device;
use host_io::Disk;
use host_session::{ClientEnd, SessionSpec};
use host_worker::{Hand, NoServer, Server, Started};
use std::alloc::Global;

/// A server, its client and its hand, and room for both to come back to.
#[derive(Drop)]
pub struct Begun<D: Disk> {
    pub server: Server<D>,
    pub client: ClientEnd,
    pub hand: Hand<D>,
    pub clients: Vec<ClientEnd>,
    pub hands: Vec<Hand<D>>,
}

/// Starts a server over a device, with one session. Its histories are kept as the device's is.
pub fn begin<D: Disk>(
    alloc: Global,
    device: Device<D>,
    load: &Load,
) -> Result<Begun<D>, NoServer<D>>
    requires device { ((steps_of device).items ≡ []) × ((shape_of device).size ≡ load.now.size)
        × ((shape_of device).blocks ≡ load.now.blocks) }
    requires range { load.now.range.first + load.now.range.count ≤ load.now.blocks }
    ensures { MatchResult result (λ begun. IsBegunOver device load.now begun)
        (λ no. no.device ≡ device) }
{
    let specs = match specs_for(alloc, load, device.is_kept()) {
        Ok(specs) => specs,
        Err(Oom) => return Err(NoServer { device }),
    };
    let started = Server::start(alloc, device, &specs, 1, load.size)?;
    Ok(take_apart(started))
}

// The one client and the one hand leave their lists.
fn take_apart<D: Disk>(started: Started<D>) -> Begun<D>
    requires clients { vec_len started.clients ≡ 1 }
    requires hands { vec_len started.hands ≡ 1 }
    ensures server { result.server ≡ started.server }
    ensures client { started.clients.items ≡ result.client ∷ [] }
    ensures hand { started.hands.items ≡ result.hand ∷ [] }
    ensures clients_room { (result.clients.items ≡ []) × (1 ≤ vec_capacity result.clients) }
    ensures hands_room { (result.hands.items ≡ []) × (1 ≤ vec_capacity result.hands) }
{
    let Started {
        server,
        mut clients,
        mut hands,
    } = started;
    let client = clients.pop().unwrap();
    let hand = hands.pop().unwrap();
    Begun {
        server,
        client,
        hand,
        clients,
        hands,
    }
}

// The spec of the one session, with room for each record and its answer.
fn specs_for(alloc: Global, load: &Load, keeps: bool) -> Result<Vec<SessionSpec>, Oom>
    ensures { IfOk result (λ specs. specs.items ≡ spec_for load.now keeps ∷ []) }
{
    let Ok(mut specs) = Vec::with_capacity(alloc, 1) else {
        return Err(Oom);
    };
    specs.push_reserved(SessionSpec {
        number: 1,
        part_number: 1,
        part: load.range,
        size: load.size,
        depth: 16,
        records: load.records,
        attaches: 0,
        events: 2 * load.records as u64,
        memory_room: 0,
        keeps,
    });
    Ok(specs)
}
