// Scripts that are made from a seed.
ghost use Rattle.std.specs.Prelude.{◌≡◌, ◌+◌, ◌-◌, ◌≤◌, ◌<◌, ◌++◌, ◌∷◌, IfOk, OnOk};
ghost use Rattle.script_model.specs.Plans.{plan_of};
ghost use Rattle.script_model.specs.Generate.{after_request, request_line, waits, after_requests};
ghost use Rattle.script_model.specs.Generate.{session_from, generated};
ghost use Rattle.script_model.specs.Plans.{plans_of};

use crate::append::append;
use crate::draws::Draws;
use host_block::{Oom, ReservedList};
use host_record::Finish;
use script_model::{Script, ScriptLine, ScriptLines, SessionScript};
use std::alloc::Global;

/// The script of a seed: so many sessions of so many requests each.
pub fn generate(alloc: Global, seed: u32, sessions: u32, requests: u32) -> Result<Script, Oom>
    requires seed { seed < 2147483648 }
    requires sessions { sessions ≤ 16 }
    requires requests { requests ≤ 2048 }
    ensures { IfOk result (λ s. plans_of s ≡ generated seed sessions requests) }
{
    let mut draws = Draws { state: seed };
    let mut made = ReservedList::with_room(alloc, u64::from(sessions))?;
    for index in 0..sessions as u8 {
        let session = session(alloc, &mut draws, index + 1, requests)?;
        append(&mut made, session)?;
    }
    Ok(Script { sessions: made })
}

// Session `number`, which has so many requests.
#[tactic(auto, unfolding(script_model::specs::Generate::session_from))]
fn session(
    alloc: Global,
    draws: &mut Draws,
    number: u8,
    requests: u32,
) -> Result<SessionScript, Oom>
    requires { requests ≤ 2048 }
    ensures state { IfOk result (λ _. draws.new.state ≡ after_requests draws.old.state requests) }
    ensures plan { IfOk result (λ s. plan_of s ≡ session_from draws.old.state number requests) }
{
    let mut lines = ReservedList::with_room(alloc, 3 + 2 * u64::from(requests))?;
    append(&mut lines, ScriptLine::Attach { pages: 8 })?;
    append(
        &mut lines,
        ScriptLine::Fill {
            id: 1,
            block: 0,
            count: 8,
            byte: number,
        },
    )?;
    for n in 0..requests {
        add_request(draws, &mut lines, n, requests)?;
    }
    append(
        &mut lines,
        ScriptLine::Show {
            id: 1,
            block: 0,
            count: 8,
        },
    )?;
    Ok(SessionScript {
        part: if number % 2 == 1 { 1 } else { 2 },
        lines,
        finish: Finish::Drain,
    })
}

// Adds request `n` of so many, and a wait where one follows it.
fn add_request(draws: &mut Draws, lines: &mut ScriptLines, n: u32, requests: u32) -> Result<(), Oom>
    requires { n < requests }
    ensures state { OnOk result (draws.new.state ≡ after_request draws.old.state) }
    ensures lines { OnOk result (lines.new.items
        ≡ lines.old.items ++ request_line draws.old.state n ∷ waits n (requests - (n + 1))) }
{
    append(lines, draws.request_line(n))?;
    if (n + 1) % 16 == 0 || n + 1 == requests {
        append(lines, ScriptLine::WaitAll)?;
    }
    Ok(())
}
