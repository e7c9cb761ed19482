//! All that stands before the sessions begin.
ghost use Rattle.std.specs.Prelude.{◌≡◌, ◌≤◌, ◌+◌, [], length, All, IfOk, MatchResult};
ghost use Rattle.host_device.specs.Seen.{disk_of, shape_of, steps_of};
ghost use Rattle.script_model.specs.Plans.{plans_of};
ghost use Rattle.host_play.specs.Opened.{specs_from};
ghost use Rattle.host_play.specs.Stages.{AreProps, HasRoomForAll, IsGround, AreSessionsPlayable};
ghost use Rattle.host_play.specs.Stages.{IsSet, IsSetting, IsStaged};
ghost use Rattle.host_worker.specs.Starts.{AreSpecs};

use crate::actor::Actor;
use crate::casting::cast_all;
use crate::device::{into_disk, open_device};
use crate::opened::specs_for;
use crate::pieces::all_pieces;
use crate::played::{Ground, NoPlay, Setting};
use host_block::{BlockSize, Bytes, Oom, Range};
use host_device::Device;
use host_io::Disk;
use host_session::{ClientEnd, SessionSpec};
use host_worker::{Hand, NoServer, Server, Started};
use script_model::Script;
use script_played::steps_ahead;
use std::alloc::Global;

/// A server, all that take part, and room for its clients and hands to come back to.
#[derive(Drop)]
pub struct Stage<D: Disk> {
    pub server: Server<D>,
    pub actors: Vec<Actor<D>>,
    pub clients: Vec<ClientEnd>,
    pub hands: Vec<Hand<D>>,
}

/// What is taken before a server is started.
#[derive(Drop)]
pub struct Props<D: Disk> {
    pub specs: Vec<SessionSpec>,
    pub pieces: Vec<Vec<Bytes>>,
    /// Empty, with room for all.
    pub actors: Vec<Actor<D>>,
    pub clients: Vec<ClientEnd>,
    pub hands: Vec<Hand<D>>,
}

/// Starts a server over this disk, with a session for each of the script, and all that take part.
/// All histories have room for what the script makes at most.
pub fn set_stage<D: Disk>(
    alloc: Global,
    script: &Script,
    ranges: &[Range],
    ground: Ground<D>,
    setting: Setting,
) -> Result<Stage<D>, NoPlay<D>>
    requires script { AreSessionsPlayable script.now.sessions.items }
    requires ranges { length ranges.now ≡ length (plans_of script.now) }
    requires inside { All (λ range. range.first + range.count ≤ ground.blocks) ranges.now }
    requires ground { IsGround (D.shape ground.disk) (D.state ground.disk) ground.blocks
        ground.size }
    requires setting { IsSetting setting }
    ensures { MatchResult result
        (λ stage. IsSet ground.disk (plans_of script.now) ranges.now ground.size setting stage)
        (λ no. no.disk ≡ ground.disk) }
{
    let Ground {
        disk,
        blocks,
        size,
        ..
    } = ground;
    let hands = setting.workers + script.sessions.len() as u32;
    let props = match take_props(alloc, script, ranges, size, setting.depth, hands) {
        Ok(props) => props,
        Err(Oom) => return Err(NoPlay { disk }),
    };
    match open_device(alloc, disk, blocks, size, steps_ahead(script)) {
        Ok(device) => start(alloc, device, props, hands, size),
        Err(no) => Err(no),
    }
}

// Takes what is needed beside the server.
fn take_props<D: Disk>(
    alloc: Global,
    script: &Script,
    ranges: &[Range],
    size: BlockSize,
    depth: u32,
    hands: u32,
) -> Result<Props<D>, Oom>
    requires script { AreSessionsPlayable script.now.sessions.items }
    requires ranges { length ranges.now ≡ length (plans_of script.now) }
    ensures { IfOk result (λ props.
        AreProps (plans_of script.now) (specs_from 1 (plans_of script.now) ranges.now size depth)
        size hands props) }
{
    let specs = specs_for(alloc, script, ranges, size, depth)?;
    let pieces = all_pieces(alloc, script, size)?;
    let Ok(actors) = Vec::with_capacity(alloc, hands as usize) else {
        return Err(Oom);
    };
    let Ok(clients) = Vec::with_capacity(alloc, specs.len()) else {
        return Err(Oom);
    };
    let Ok(hands) = Vec::with_capacity(alloc, hands as usize) else {
        return Err(Oom);
    };
    Ok(Props {
        specs,
        pieces,
        actors,
        clients,
        hands,
    })
}

// Starts the server over a device, and casts all that take part.
fn start<D: Disk>(
    alloc: Global,
    device: Device<D>,
    props: Props<D>,
    hands: u32,
    size: BlockSize,
) -> Result<Stage<D>, NoPlay<D>>
    requires hands { (length props.specs.items ≤ hands) × (1 ≤ hands) × (hands ≤ 4294967293) }
    requires device { ((steps_of device).items ≡ []) × ((shape_of device).size ≡ size) }
    requires specs { AreSpecs (steps_of device).kept (shape_of device).blocks size
        props.specs.items }
    requires room { HasRoomForAll hands props }
    ensures { MatchResult result (λ stage. IsStaged device props hands stage)
        (λ no. no.disk ≡ disk_of device) }
{
    let Props {
        specs,
        pieces,
        actors,
        clients: client_room,
        hands: hand_room,
    } = props;
    match Server::start(alloc, device, &specs, hands, size) {
        Ok(started) => {
            let Started {
                server,
                clients,
                hands,
            } = started;
            Ok(Stage {
                server,
                actors: cast_all(clients, hands, pieces, actors),
                clients: client_room,
                hands: hand_room,
            })
        }
        Err(NoServer { device }) => Err(NoPlay {
            disk: into_disk(device),
        }),
    }
}
