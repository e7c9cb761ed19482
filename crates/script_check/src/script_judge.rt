// What a script asks, as plans of the judge.
ghost use Rattle.std.specs.Prelude.{◌≡◌, ◌↔◌, ◌++◌, IsTrue, IfOk, OnOk, map};
ghost use Rattle.played_check.specs.Plans.{played_plan};
ghost use Rattle.script_check.specs.Asks.{script_ask};
ghost use Rattle.script_model.specs.Plans.{plan_of as session_plan};
ghost use Rattle.script_played.specs.Played.{Plays, asked_of};

use host_report::Report;
use host_script::{Script, ScriptLine, SessionScript};
use played_check::{Ask, Plan, is_played};
use std::alloc::{AllocError, Global};

fn ask(line: &ScriptLine) -> Ask
    ensures { result ≡ script_ask line.now }
{
    match *line {
        ScriptLine::Attach { pages } => Ask::Attach { pages },
        ScriptLine::Fill {
            id,
            block,
            count,
            byte,
        } => Ask::Fill {
            id,
            block,
            count,
            byte,
        },
        ScriptLine::Show { id, block, count } => Ask::Show { id, block, count },
        ScriptLine::Send { bytes } => Ask::Send { bytes },
        ScriptLine::WaitAll => Ask::WaitAll,
        ScriptLine::WaitFor { total } => Ask::WaitFor {
            total: u64::from(total),
        },
    }
}

fn asks(alloc: Global, lines: &[ScriptLine]) -> Result<Vec<Ask>, AllocError>
    ensures { IfOk result (λ asks. asks.items ≡ map script_ask lines.now) }
{
    lines.iter().map(ask).collect(alloc)
}

#[tactic(auto, using(crate::proofs::AskLemmas::asked))]
fn plan(alloc: Global, session: &SessionScript) -> Result<Plan, AllocError>
    ensures { IfOk result (λ plan. played_plan plan ≡ asked_of (session_plan session.now)) }
{
    let asks = asks(alloc, session.lines.as_slice())?;
    Ok(Plan {
        part: session.part,
        asks,
        finish: session.finish,
    })
}

fn add_plans(
    alloc: Global,
    plans: &mut Vec<Plan>,
    sessions: &[SessionScript],
) -> Result<(), AllocError>
    ensures { OnOk result (map played_plan plans.new.items
        ≡ map played_plan plans.old.items ++ map asked_of (map session_plan sessions.now)) }
{
    match sessions {
        [] => Ok(()),
        [session, rest @ ..] => {
            plans.push(plan(alloc, session)?)?;
            add_plans(alloc, plans, rest)
        }
    }
}

/// Whether the run that the report tells of played the script.
pub fn plays(alloc: Global, script: &Script, report: &Report) -> Result<bool, AllocError>
    ensures { IfOk result (λ b. IsTrue b ↔ Plays script.now report.now) }
{
    let mut plans = Vec::new(alloc);
    add_plans(alloc, &mut plans, script.sessions.as_slice())?;
    is_played(alloc, &plans, report)
}
