//! How many entries the histories of a run get at most.
ghost use Rattle.std.specs.Prelude.{◌≡◌, ◌≤◌, ◌*◌, nat_le, if◌then◌else◌, All, length};
ghost use Rattle.std.specs.List.{count_by, sum_by};
ghost use Rattle.script_model.specs.Limit.{is_record};
ghost use Rattle.script_model.specs.Plans.{plans_of};
ghost use Rattle.script_played.specs.Room.{by_record, moves_by_request, moves_in, steps_ahead};
ghost use Rattle.script_played.specs.Room.{steps_by_request, steps_in};

use host_record::{Opcode, Request};
use script_model::{Script, ScriptLine};

/// How many steps the device makes at most for this script: those of its records, and the closing
/// flush.
#[tactic(auto, using(crate::proofs::Bounds::steps_of_plans), unfolding(crate::specs::Room::steps_ahead))]
pub fn steps_ahead(script: &Script) -> u64
    requires few { length script.now.sessions.items ≤ 16 }
    requires records { All (λ session. count_by is_record session.lines.items ≤ 65535)
        script.now.sessions.items }
    ensures { result ≡ steps_ahead (plans_of script.now) }
{
    let mut total = 1;
    for session in script.sessions.as_slice() {
        total += steps_in(session.lines.as_slice());
    }
    total
}

/// How many pages the records of these lines lift or land at most.
#[tactic(auto, using(crate::proofs::Bounds::moves_fit))]
pub fn moves_in(lines: &[ScriptLine]) -> u64
    requires { count_by is_record lines.now ≤ 65535 }
    ensures { result ≡ moves_in lines.now }
{
    sum_moves(lines)
}

#[tactic(auto, unfolding(crate::specs::Room::moves_in))]
fn sum_moves(lines: &[ScriptLine]) -> u64
    requires { sum_by (by_record moves_by_request) lines.now ≤ 65537 * 65535 }
    ensures { result ≡ moves_in lines.now }
{
    lines.iter().map(|line| u64::from(moves_by(line))).sum()
}

// How many steps the records of these lines make at most.
#[tactic(auto, using(crate::proofs::Bounds::steps_fit))]
fn steps_in(lines: &[ScriptLine]) -> u64
    requires { count_by is_record lines.now ≤ 65535 }
    ensures value { result ≡ steps_in lines.now }
    ensures bound { result ≤ 65537 * 65535 }
{
    sum_steps(lines)
}

#[tactic(auto, unfolding(crate::specs::Room::steps_in))]
fn sum_steps(lines: &[ScriptLine]) -> u64
    requires { sum_by (by_record steps_by_request) lines.now ≤ 65537 * 65535 }
    ensures value { result ≡ steps_in lines.now }
    ensures bound { result ≤ 65537 * 65535 }
{
    lines.iter().map(|line| u64::from(steps_by(line))).sum()
}

fn steps_by(line: &ScriptLine) -> u32
    ensures { result ≡ by_record steps_by_request line.now }
{
    match line {
        ScriptLine::Send { bytes } => steps_by_request(&Request::from_bytes(bytes)),
        _ => 0,
    }
}

fn moves_by(line: &ScriptLine) -> u32
    ensures { result ≡ by_record moves_by_request line.now }
{
    match line {
        ScriptLine::Send { bytes } => moves_by_request(&Request::from_bytes(bytes)),
        _ => 0,
    }
}

// A length above 65,536 is refused, so such a record makes none.
fn steps_by_request(request: &Request) -> u32
    ensures { result ≡ steps_by_request request.now }
{
    match request.opcode() {
        Some(Opcode::Read | Opcode::Trim) => blocks_moved(request),
        Some(Opcode::Write) => blocks_moved(request) + u32::from(request.is_forced()),
        Some(Opcode::Flush) => 1,
        _ => 0,
    }
}

// The length of a transfer or trim that isn't refused for it.
fn blocks_moved(request: &Request) -> u32
    ensures value { result ≡ (if nat_le request.now.length 65536 then request.now.length else 0) }
    ensures bound { result ≤ 65536 }
{
    if request.length <= 65536 {
        request.length
    } else {
        0
    }
}

fn moves_by_request(request: &Request) -> u32
    ensures { result ≡ moves_by_request request.now }
{
    match request.opcode() {
        Some(Opcode::Read | Opcode::Write) if request.length <= 65536 => request.length,
        _ => 0,
    }
}
