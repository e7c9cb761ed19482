//! Each does its part: a client plays its session, and a worker goes round the server until all
//! sessions are closed.
ghost use Rattle.std.specs.Prelude.{◌<◌, All, length};
ghost use Rattle.host_worker.specs.Hands.{IsHandOf};
ghost use Rattle.host_worker.specs.Servers.{IsClientOf, IsServer};
ghost use Rattle.script_model.specs.Plans.{plans_of};
ghost use Rattle.host_play.specs.Actors.{HasPlayedPart, HasPlayedSession, IsCast, IsClientReady};
ghost use Rattle.host_play.specs.Calls.{CanPlay, HasHelped, HasWorkedAlone};
ghost use Rattle.host_play.specs.Casts.{AllHavePlayed};

use crate::actor::{Actor, Client};
use crate::ahead::ask_ahead;
use crate::client::play_session;
use host_io::{Disk, Gate};
use host_worker::{Hand, Server, Turn, turn};
use script_model::Script;
use std::alloc::Global;
use std::sync::Wait;
use std::thread;
use std::thread::Threads;

/// All do their parts, each in a thread of its own. Where no thread can be made they run one after
/// the other from the last on, so the clients have to stand last there: they end by themselves, and
/// the workers wait for them.
pub fn act_all<R: Threads + Wait + Sync, D: Disk + Send, G: Gate + Sync>(
    rt: &R,
    alloc: Global,
    server: &Server<D>,
    actors: &mut [Actor<D>],
    script: &Script,
    gate: &G,
)
    requires server { IsServer server.now }
    requires some { 0 < length actors.old }
    requires playable { All (λ session. All CanPlay session.lines.items) script.now.sessions.items }
    requires cast { All (IsCast server.now (plans_of script.now)) actors.old }
    ensures { AllHavePlayed server.now (plans_of script.now) actors.old actors.new }
{
    actors.reverse();
    ask_ahead(alloc);
    act_each(rt, alloc, server, actors, script, gate);
    actors.reverse();
}

// Each does its part.
fn act_each<R: Threads + Wait + Sync, D: Disk + Send, G: Gate + Sync>(
    rt: &R,
    alloc: Global,
    server: &Server<D>,
    actors: &mut [Actor<D>],
    script: &Script,
    gate: &G,
)
    requires server { IsServer server.now }
    requires some { 0 < length actors.old }
    requires playable { All (λ session. All CanPlay session.lines.items) script.now.sessions.items }
    requires cast { All (IsCast server.now (plans_of script.now)) actors.old }
    ensures { AllHavePlayed server.now (plans_of script.now) actors.old actors.new }
{
    let threads = actors.len();
    let one = move |_: usize, actor: &mut Actor<D>|
        requires { IsServer server.now
            × All (λ session. All CanPlay session.lines.items) script.now.sessions.items
            × IsCast server.now (plans_of script.now) actor.now }
        ensures { HasPlayedPart server.entry.now (plans_of script.entry.now) actor.entry.now
            actor.exit.now }
    { act(rt, alloc, server, actor, script, gate) };
    thread::for_each_mut(rt, actors, threads, &one);
}

// One does its part.
fn act<R: Wait, D: Disk, G: Gate>(
    rt: &R,
    alloc: Global,
    server: &Server<D>,
    actor: &mut Actor<D>,
    script: &Script,
    gate: &G,
)
    requires server { IsServer server.now }
    requires playable { All (λ session. All CanPlay session.lines.items) script.now.sessions.items }
    requires cast { IsCast server.now (plans_of script.now) actor.old }
    ensures { HasPlayedPart server.now (plans_of script.now) actor.old actor.new }
{
    ask_ahead(alloc);
    match &mut actor.client {
        Some(client) => play(rt, alloc, server, client, &mut actor.hand, script, gate),
        None => work(rt, alloc, server, &mut actor.hand, gate),
    }
}

// A client plays its session of a script.
fn play<R: Wait, D: Disk, G: Gate>(
    rt: &R,
    alloc: Global,
    server: &Server<D>,
    client: &mut Client,
    hand: &mut Hand<D>,
    script: &Script,
    gate: &G,
)
    requires server { IsServer server.now }
    requires client { IsClientOf server.now client.old.end }
    requires hand { IsHandOf server.now hand.old }
    requires playable { All (λ session. All CanPlay session.lines.items) script.now.sessions.items }
    requires ready { IsClientReady (plans_of script.now) client.old }
    ensures played { HasPlayedSession (plans_of script.now) client.old.end client.new.end }
    ensures helped { HasHelped server.now hand.old hand.new client.old.end client.new.end }
{
    let place = client.end.number() as u64 - 1;
    match script.sessions.get(place) {
        Some(session) => play_session(rt, alloc, server, client, hand, gate, session),
        None => unreachable!(),
    }
}

// A worker goes round until all sessions are closed.
fn work<R: Wait, D: Disk, G: Gate>(
    rt: &R,
    alloc: Global,
    server: &Server<D>,
    hand: &mut Hand<D>,
    gate: &G,
)
    requires server { IsServer server.now }
    requires hand { IsHandOf server.now hand.old }
    ensures { HasWorkedAlone server.now hand.old hand.new }
{
    for _ in rt.forever() {
        match turn(rt, alloc, server, hand, gate) {
            Turn::Did => {}
            Turn::Idle => thread::yield_now(),
            Turn::AllClosed => return,
        }
    }
    unreachable!()
}
