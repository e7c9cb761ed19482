//! A client plays its session.
ghost use Rattle.std.specs.Prelude.{◌≡◌, true, All, Some};
ghost use Rattle.host_session.specs.Opened.{IsNewClient};
ghost use Rattle.host_worker.specs.Hands.{IsHandOf};
ghost use Rattle.host_worker.specs.Servers.{IsClientOf, IsServer};
ghost use Rattle.host_worker.specs.Waits.{MayWait};
ghost use Rattle.host_play.specs.Calls.{CanPlay, HasDone, HasHelped, MayPlay};
ghost use Rattle.host_play.specs.Logs.{HasPlayed, HasPlayedOut};
ghost use Rattle.host_play.specs.Opened.{HasRoomForLines};
ghost use Rattle.host_play.specs.Pieces.{ArePieces, IsNextPiece, WasTaken, piece_length};

use crate::actor::Client;
use crate::ending::end_session;
use crate::lines;
use host_io::{Disk, Gate};
use host_worker::{Hand, Server};
use script_model::{ScriptLine, SessionScript};
use std::alloc::Global;
use std::sync::Wait;

/// Plays the lines of a session in their order, and ends it.
pub fn play_session<R: Wait, D: Disk, G: Gate>(
    rt: &R,
    alloc: Global,
    server: &Server<D>,
    client: &mut Client,
    hand: &mut Hand<D>,
    gate: &G,
    session: &SessionScript,
)
    requires server { IsServer server.now }
    requires client { IsClientOf server.now client.old.end }
    requires hand { IsHandOf server.now hand.old }
    requires new { IsNewClient client.old.end }
    requires room { HasRoomForLines session.now.lines.items client.old.end.plan.spec }
    requires pieces { ArePieces client.old.end.plan.spec.size session.now.lines.items
        client.old.pieces.items }
    requires playable { All CanPlay session.now.lines.items }
    ensures plan { client.new.end.plan ≡ client.old.end.plan }
    ensures finish { client.new.end.finish ≡ Some session.now.finish }
    ensures closed { client.new.end.closed ≡ true }
    ensures played { HasPlayedOut session.now.finish session.now.lines.items client.new.end.log }
    ensures helped { HasHelped server.now hand.old hand.new client.old.end client.new.end }
{
    play_lines(
        rt,
        alloc,
        server,
        client,
        hand,
        gate,
        session.lines.as_slice(),
    );
    end_session(
        rt,
        alloc,
        server,
        &mut client.end,
        hand,
        gate,
        session.finish,
    );
}

// Plays lines, one after the other.
fn play_lines<R: Wait, D: Disk, G: Gate>(
    rt: &R,
    alloc: Global,
    server: &Server<D>,
    client: &mut Client,
    hand: &mut Hand<D>,
    gate: &G,
    lines: &[ScriptLine],
)
    requires server { IsServer server.now }
    requires client { IsClientOf server.now client.old.end }
    requires hand { IsHandOf server.now hand.old }
    requires new { IsNewClient client.old.end }
    requires room { HasRoomForLines lines.now client.old.end.plan.spec }
    requires pieces { ArePieces client.old.end.plan.spec.size lines.now client.old.pieces.items }
    requires playable { All CanPlay lines.now }
    ensures plan { client.new.end.plan ≡ client.old.end.plan }
    ensures may { MayWait 0 client.new.end }
    ensures played { HasPlayed lines.now client.new.end.log }
    ensures helped { HasHelped server.now hand.old hand.new client.old.end client.new.end }
{
    for line in lines {
        client.end.vouch();
        play_line(rt, alloc, server, client, hand, gate, line);
    }
    client.end.vouch();
}

// Plays a line.
fn play_line<R: Wait, D: Disk, G: Gate>(
    rt: &R,
    alloc: Global,
    server: &Server<D>,
    client: &mut Client,
    hand: &mut Hand<D>,
    gate: &G,
    line: &ScriptLine,
)
    requires server { IsServer server.now }
    requires client { IsClientOf server.now client.old.end }
    requires hand { IsHandOf server.now hand.old }
    requires may { MayPlay line.now client.old.end }
    requires playable { CanPlay line.now }
    requires piece { IsNextPiece (piece_length client.old.end.plan.spec.size line.now)
        client.old.pieces.items }
    ensures done { HasDone line.now client.old.end client.new.end }
    ensures helped { HasHelped server.now hand.old hand.new client.old.end client.new.end }
    ensures piece { WasTaken (piece_length client.old.end.plan.spec.size line.now)
        client.old.pieces.items client.new.pieces.items }
{
    let end = &mut client.end;
    match *line {
        ScriptLine::Attach { pages } => lines::attach(rt, server, end, hand, pages),
        ScriptLine::Fill {
            id,
            block,
            count,
            byte,
        } => lines::fill(rt, server, end, id, block, count, byte),
        ScriptLine::Show { id, block, count } => {
            let into = client.pieces.pop().unwrap();
            lines::show(rt, server, end, id, block, count, into);
        }
        ScriptLine::Send { bytes } => lines::send(rt, alloc, server, end, hand, gate, bytes),
        ScriptLine::WaitAll => lines::wait_all(rt, alloc, server, end, hand, gate),
        ScriptLine::WaitFor { total } => lines::wait_for_some(
            rt, alloc, server, end, hand, gate, total,
        ),
    }
}
