// The limits of a script.
ghost use Rattle.std.specs.Prelude.{◌≡◌, ◌≤◌, ◌<◌, ◌*◌, length};
ghost use Rattle.std.specs.List.{sum_by, list_any};
ghost use Rattle.script_model.specs.Limit.{is_record, moved_by, moved_by_request, moved_by_lines};
ghost use Rattle.script_model.specs.Limit.{has_many_records, limit_of};
ghost use Rattle.script_model.specs.Plans.{plans_of};

use crate::{Script, ScriptLine, SessionScript};
use host_block::BlockSize;
use host_record::{Opcode, Request};

/// A limit that a script may pass.
#[derive(Clone, Copy, Debug, PartialEq, Eq)]
pub enum Limit {
    /// More than 16 sessions.
    Sessions,
    /// More than 65,535 records in a session.
    Records,
    /// More than 134,217,728 bytes moved.
    Moved,
}

// Whether the line sends a record.
fn is_record(line: &ScriptLine) -> bool
    ensures { result ≡ is_record line.now }
{
    match line {
        ScriptLine::Send { .. } => true,
        _ => false,
    }
}

// The blocks that a record moves.
fn moved_by_request(request: &Request) -> u32
    ensures { result ≡ moved_by_request request.now }
{
    match request.opcode() {
        Some(Opcode::Read | Opcode::Write | Opcode::Trim) if request.length <= 65536 =>
            request.length,
        _ => 0,
    }
}

// The blocks that a line moves.
#[tactic(auto, unfolding(crate::specs::Limit::moved_by))]
fn moved_by(line: &ScriptLine) -> u32
    ensures { result ≡ moved_by line.now }
{
    match line {
        ScriptLine::Fill { count, .. } => *count,
        ScriptLine::Show { count, .. } => *count,
        ScriptLine::Send { bytes } => moved_by_request(&Request::from_bytes(bytes)),
        _ => 0,
    }
}

#[tactic(auto, unfolding(crate::specs::Limit::has_many_records))]
fn has_many_records(lines: &[ScriptLine]) -> bool
    ensures { result ≡ has_many_records lines.now }
{
    lines.iter().filter(|line| is_record(line)).count() > 65535
}

// The blocks that these lines move, whose sum fits in 128 bits.
#[tactic(auto, unfolding(crate::specs::Limit::moved_by_lines))]
fn moved_by_lines(lines: &[ScriptLine]) -> u128
    ensures value { result ≡ moved_by_lines lines.now }
    ensures bound { result ≤ 0x1_0000_0000 * 0x1_0000_0000_0000_0000 }
{
    let mut total = 0;
    for line in lines {
        total += u128::from(moved_by(line));
    }
    total
}

fn any_has_many(sessions: &[SessionScript]) -> bool
    ensures { result ≡ list_any (λ s. has_many_records s.lines.items) sessions.now }
{
    sessions
        .iter()
        .any(|s| has_many_records(s.lines.as_slice()))
}

// The blocks that the lines of all sessions move.
fn moved_in_all(sessions: &[SessionScript]) -> u128
    requires { length sessions.now ≤ 16 }
    ensures value { result ≡ sum_by (λ s. moved_by_lines s.lines.items) sessions.now }
    ensures bound { result ≤ 16 * (0x1_0000_0000 * 0x1_0000_0000_0000_0000) }
{
    let mut total = 0;
    for session in sessions {
        total += moved_by_lines(session.lines.as_slice());
    }
    total
}

impl Script {
    /// The first limit that is passed, with blocks of that size.
    #[tactic(auto, using(crate::proofs::Moved::limit_by))]
    pub fn limit(&self, size: BlockSize) -> Option<Limit>
        ensures { result ≡ limit_of size (plans_of self.now) }
    {
        let sessions = self.sessions.as_slice();
        if sessions.len() > 16 {
            Some(Limit::Sessions)
        } else if any_has_many(sessions) {
            Some(Limit::Records)
        } else if u128::from(size.bytes()) * moved_in_all(sessions) > 134_217_728 {
            Some(Limit::Moved)
        } else {
            None
        }
    }
}
