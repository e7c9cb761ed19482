//! A hand goes round the sessions.
ghost use Rattle.std.specs.Prelude.{◌≡◌, ◌+◌, ◌<◌, ◌≤◌, length, Some};
ghost use Rattle.host_hand.specs.Visits.{done_at, count_told};
ghost use Rattle.host_worker.specs.Accounts.{HasWorked};
ghost use Rattle.host_worker.specs.Forced.{KeepsForcedOfEach};
ghost use Rattle.host_worker.specs.Hands.{IsHandOf};
ghost use Rattle.host_worker.specs.Servers.{IsServer, session_count};
ghost use Rattle.host_worker.specs.Turns.{AreOthersSame, HasVisited, IsNoteFor, IsOwnTold, IsRound};
ghost use Rattle.host_worker.specs.Turns.{begun_in, found_after, has_done, is_did, joined_turns};
ghost use Rattle.host_worker.specs.Turns.{things_in};

use crate::hand::Hand;
use crate::server::Server;
use crate::turned::Turn;
use host_hand::{Visit, serve};
use host_io::{Disk, Gate};
use host_rings::Note;
use std::alloc::Global;
use std::sync::Wait;

/// A hand goes round the sessions until it has done one thing at one of them. It begins at the one
/// where it last did.
pub fn turn<R: Wait, D: Disk, G: Gate>(
    rt: &R,
    alloc: Global,
    server: &Server<D>,
    hand: &mut Hand<D>,
    gate: &G,
) -> Turn
    requires server { IsServer server.now }
    requires hand { IsHandOf server.now hand.old }
    ensures hand { IsHandOf server.now hand.new }
    ensures worked { HasWorked hand.old hand.new }
    ensures answer { IsRound 0 (session_count server.now) hand.old hand.new result }
    ensures once { begun_in hand.new ≡ begun_in hand.old + things_in result }
    ensures forced { KeepsForcedOfEach server.now hand.new }
{
    let start = hand.next;
    let count = count_of(server);
    let behind = go_over(rt, alloc, server, hand, gate, start, count);
    if has_done(behind) {
        return Turn::Did;
    }
    let before = go_over(rt, alloc, server, hand, gate, 0, start);
    joined(behind, before)
}

/// The same, by the hand of a client. It begins at the session of this place, with a note of what
/// the client sent there.
pub(crate) fn turn_at<R: Wait, D: Disk, G: Gate>(
    rt: &R,
    alloc: Global,
    server: &Server<D>,
    hand: &mut Hand<D>,
    gate: &G,
    place: usize,
    note: Note,
) -> Turn
    requires server { IsServer server.now }
    requires hand { IsHandOf server.now hand.old }
    requires place { place < session_count server.now }
    requires note { IsNoteFor place hand.old (Some note) }
    ensures hand { IsHandOf server.now hand.new }
    ensures worked { HasWorked hand.old hand.new }
    ensures once { begun_in hand.new ≡ begun_in hand.old + things_in result }
    ensures told { IsOwnTold place (length note.pushed) hand.new result }
{
    let count = count_of(server);
    let own = visit(rt, alloc, server, hand, gate, place, Some(note));
    if is_did(own) {
        hand.next = place;
        return Turn::Did;
    }
    let behind = go_over(rt, alloc, server, hand, gate, place + 1, count);
    if has_done(behind) {
        return Turn::Did;
    }
    let before = go_over(rt, alloc, server, hand, gate, 0, place);
    joined(found_after(behind, own), before)
}

// How many sessions there are.
fn count_of<D: Disk>(server: &Server<D>) -> usize
    ensures { result ≡ session_count server.now }
{
    server.sessions.len()
}

// What two rounds found together.
fn joined(first: Turn, second: Turn) -> Turn
    ensures { result ≡ joined_turns first second }
{
    match first {
        Turn::Did => Turn::Did,
        Turn::Idle => {
            match second {
                Turn::Did => Turn::Did,
                _ => Turn::Idle,
            }
        }
        Turn::AllClosed => second,
    }
}

// Whether a round did something.
pub(crate) fn has_done(turn: Turn) -> bool
    ensures { result ≡ has_done turn }
{
    matches!(turn, Turn::Did)
}

// Whether a visit did something.
fn is_did(visit: Visit) -> bool
    ensures { result ≡ is_did visit }
{
    matches!(visit, Visit::Did)
}

// What was found, with a visit more that did nothing.
fn found_after(found: Turn, visit: Visit) -> Turn
    ensures { result ≡ found_after found visit }
{
    match visit {
        Visit::Idle => Turn::Idle,
        Visit::Did | Visit::Closed => found,
    }
}

// Visits the sessions at these places in order, until something was done at one.
fn go_over<R: Wait, D: Disk, G: Gate>(
    rt: &R,
    alloc: Global,
    server: &Server<D>,
    hand: &mut Hand<D>,
    gate: &G,
    from: usize,
    to: usize,
) -> Turn
    requires server { IsServer server.now }
    requires hand { IsHandOf server.now hand.old }
    requires places { (from ≤ to) × (to ≤ session_count server.now) }
    ensures hand { IsHandOf server.now hand.new }
    ensures worked { HasWorked hand.old hand.new }
    ensures others { AreOthersSame from to hand.old hand.new }
    ensures answer { IsRound from to hand.old hand.new result }
    ensures once { begun_in hand.new ≡ begun_in hand.old + things_in result }
{
    let mut found = Turn::AllClosed;
    for k in from..to {
        let answer = visit(rt, alloc, server, hand, gate, k, None);
        if is_did(answer) {
            hand.next = k;
            return Turn::Did;
        }
        found = found_after(found, answer);
    }
    found
}

// Serves the session at this place, with a note of what was sent there, if there is one.
fn visit<R: Wait, D: Disk, G: Gate>(
    rt: &R,
    alloc: Global,
    server: &Server<D>,
    hand: &mut Hand<D>,
    gate: &G,
    k: usize,
    note: Option<Note>,
) -> Visit
    requires server { IsServer server.now }
    requires hand { IsHandOf server.now hand.old }
    requires place { k < session_count server.now }
    requires note { IsNoteFor k hand.old note }
    ensures hand { IsHandOf server.now hand.new }
    ensures worked { HasWorked hand.old hand.new }
    ensures visited { HasVisited k (count_told note) hand.old hand.new result }
    ensures once { begun_in hand.new ≡ begun_in hand.old + done_at result }
{
    let session = &server.sessions[k];
    serve(
        rt,
        alloc,
        &session.shared,
        &session.spec,
        &server.device,
        &server.pool,
        hand.number,
        &mut hand.sessions[k],
        &mut hand.device_seat,
        &mut hand.pool_seat,
        gate,
        note,
    )
}
