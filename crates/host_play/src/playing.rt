//! A script is played.
ghost use Rattle.std.specs.Prelude.{◌≡◌, ◌↔◌, ◌≤◌, ◌+◌, ◌<◌, [], All, IfOk, IfErr, IsTrue, length};
ghost use Rattle.std.specs.Prelude.{map, true, None, vec_capacity};
ghost use Rattle.host_device.specs.Faults.{RoseBy, faulted_count};
ghost use Rattle.host_device.specs.Seen.{fixed_of, shape_of, steps_of};
ghost use Rattle.host_model.specs.Changes.{changes_of};
ghost use Rattle.host_model.specs.Lists.{below};
ghost use Rattle.host_report.specs.declared.closing.Closing.TheVariants.{Cut as WasCut};
ghost use Rattle.host_turn.specs.Seats.{opening_of};
ghost use Rattle.host_worker.specs.Accounts.{AreAccounted};
ghost use Rattle.host_worker.specs.Ends.{AreEnded, hand_end};
ghost use Rattle.host_worker.specs.Finishes.{AreClosed, AreHands};
ghost use Rattle.host_worker.specs.Gathered.{reported};
ghost use Rattle.host_worker.specs.Servers.{IsServer, keeps_of, plan_of_session, session_count};
ghost use Rattle.script_model.specs.Limit.{limit_of};
ghost use Rattle.script_model.specs.Planned.{can_be_said};
ghost use Rattle.script_model.specs.Plans.{plans_of};
ghost use Rattle.script_played.specs.Played.{PlaysPlans};
ghost use Rattle.host_play.specs.Actors.{IsCast};
ghost use Rattle.host_play.specs.Calls.{CanPlay};
ghost use Rattle.host_play.specs.Casts.{clients_in, hands_in, numbers_of, of_clients};
ghost use Rattle.host_play.specs.Plays.{HasPerformed, IsReportOf, KeepsImage};
ghost use Rattle.host_play.specs.Stages.{IsGround, IsSetting};

use crate::acting::act_all;
use crate::casting::dismiss_all;
use crate::closing::close_device;
use crate::gathering::gather_kept;
use crate::played::{Ground, NoPlay, Played, Setting};
use crate::stage::{Stage, set_stage};
use host_block::Range;
use host_io::{Disk, Gate};
use host_worker::Finished;
use script_model::Script;
use std::alloc::Global;
use std::sync::Wait;
use std::thread::Threads;

/// Plays a script: each of its sessions on a partition of this range, by a client in a thread of
/// its own, beside the workers. The device is then flushed, unless that is cut.
pub fn play<R: Threads + Wait + Sync, D: Disk + Send, G: Gate + Sync>(
    rt: &R,
    alloc: Global,
    script: &Script,
    ranges: &[Range],
    ground: Ground<D>,
    setting: Setting,
    gate: &G,
) -> Result<Played<D>, NoPlay<D>>
    requires said { can_be_said (plans_of script.now) ≡ true }
    requires limits { limit_of ground.size (plans_of script.now) ≡ None }
    requires ranges { length ranges.now ≡ length (plans_of script.now) }
    requires inside { All (λ range. range.first + range.count ≤ ground.blocks) ranges.now }
    requires ground { IsGround (D.shape ground.disk) (D.state ground.disk) ground.blocks
        ground.size }
    requires setting { IsSetting setting }

    // What was played, and by what.
    ensures played { IfOk result (λ run. PlaysPlans (plans_of script.now) run.report) }
    ensures report { IfOk result (λ run.
        IsReportOf (plans_of script.now) ranges.now setting.workers setting.depth run.report) }
    ensures served { IfOk result (λ run. reported run.served ≡ run.report) }
    ensures image { IfOk result (λ run.
        (run.report.blocks ≡ ground.blocks) × (run.report.size ≡ ground.size)
        × (run.report.which ≡ ground.which)) }
    ensures ranges { IfOk result
        (λ run. map (λ session. session.range) run.report.sessions.items ≡ ranges.now) }
    ensures cut { IfOk result (λ run. (run.report.closing ≡ WasCut) ↔ IsTrue setting.cut) }

    // What became of the disk.
    ensures told { IsTrue (D.shape ground.disk).tells
        → IfOk result (λ run.
        KeepsImage (D.state ground.disk).durable ground.blocks ground.size
        (changes_of run.report.steps.items) (D.state run.disk)) }
    ensures shape { IfOk result (λ run. D.shape run.disk ≡ D.shape ground.disk) }
    ensures opening { IfOk result (λ run. D.opening run.disk ≡ D.opening ground.disk) }
    ensures faults { IfOk result (λ run.
        RoseBy (faulted_count run.report.steps.items) (D.counts ground.disk).faults
        (D.counts run.disk).faults) }
    ensures unfailing { IsTrue (D.never_fails ground.disk)
        → IfOk result (λ run.
        IsTrue (D.never_fails run.disk)
        × ((D.counts run.disk).faults ≡ (D.counts ground.disk).faults)) }
    ensures refused { IfErr result (λ no. no.disk ≡ ground.disk) }
{
    let (blocks, size, which) = (ground.blocks, ground.size, ground.which);
    let stage = set_stage(alloc, script, ranges, ground, setting)?;
    let mut finished = perform(rt, alloc, stage, script, gate);
    let closing = close_device(&mut finished.device, setting.cut);
    let (report, served, disk) = gather_kept(finished, blocks, size, which, closing);
    Ok(Played {
        report,
        served,
        disk,
    })
}

// All play their parts, and the server is finished.
fn perform<R: Threads + Wait + Sync, D: Disk + Send, G: Gate + Sync>(
    rt: &R,
    alloc: Global,
    stage: Stage<D>,
    script: &Script,
    gate: &G,
) -> Finished<D>
    requires playable { All (λ session. All CanPlay session.lines.items) script.now.sessions.items }
    requires some { 0 < length stage.actors.items }
    requires server { IsServer stage.server }
    requires cast { All (IsCast stage.server (plans_of script.now)) stage.actors.items }
    requires numbers { numbers_of stage.actors.items ≡ below stage.server.hands }
    requires clients { of_clients (λ client. client.plan) stage.actors.items
        ≡ map plan_of_session stage.server.sessions.items }
    requires hands_room { (stage.hands.items ≡ [])
        × (stage.server.hands ≤ vec_capacity stage.hands) }
    requires clients_room { (stage.clients.items ≡ [])
        × (session_count stage.server ≤ vec_capacity stage.clients) }
    ensures ended { HasPerformed (plans_of script.now) stage.server result.ends }
    ensures story { (result.ends.story ≡ (steps_of result.device).items)
        × (result.ends.size ≡ (shape_of result.device).size) }
    ensures device { fixed_of result.device ≡ fixed_of (opening_of stage.server.device) }
    ensures keeps { result.ends.keeps ≡ keeps_of stage.server }
{
    let mut stage = stage;
    act_all(
        rt,
        alloc,
        &stage.server,
        stage.actors.as_mut_slice(),
        script,
        gate,
    );
    leave_stage(stage)
}

// Finishes the server, with the clients and hands of all that took part.
fn leave_stage<D: Disk>(stage: Stage<D>) -> Finished<D>
    requires server { IsServer stage.server }
    requires hands { AreHands stage.server (hands_in stage.actors.items) }
    requires clients { AreClosed stage.server (clients_in stage.actors.items) }
    requires accounted { AreAccounted (hands_in stage.actors.items)
        (clients_in stage.actors.items) }
    requires hands_room { (stage.hands.items ≡ [])
        × (length stage.actors.items ≤ vec_capacity stage.hands) }
    requires clients_room { (stage.clients.items ≡ [])
        × (length (clients_in stage.actors.items) ≤ vec_capacity stage.clients) }
    ensures ended { AreEnded (clients_in stage.actors.items)
        (map hand_end (hands_in stage.actors.items)) result.ends }
    ensures story { (result.ends.story ≡ (steps_of result.device).items)
        × (result.ends.size ≡ (shape_of result.device).size) }
    ensures device { fixed_of result.device ≡ fixed_of (opening_of stage.server.device) }
    ensures keeps { result.ends.keeps ≡ keeps_of stage.server }
{
    let Stage {
        server,
        actors,
        mut clients,
        mut hands,
    } = stage;
    dismiss_all(actors, &mut clients, &mut hands);
    server.finish(clients, hands)
}
