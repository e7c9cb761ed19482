//! What the clients of the base report were asked for.

use super::build::{SESSIONS, request_bytes};
use super::lists::{Call, Lists};
use played_check::{Ask, Plan};
use std::alloc::Global;
use std::test::Fail;

// What a call was asked for by; an answer was waited for after so many others.
fn ask(call: Call, answers: u64) -> Option<Ask> {
    match call {
        Call::Attach(pages, _) => Some(Ask::Attach { pages }),
        Call::Fill(id, block, count, byte, _) => Some(Ask::Fill {
            id,
            block,
            count,
            byte,
        }),
        Call::Send(_, command, reqid, group, vmoid, length, vmo_offset, dev_offset) => {
            let bytes = request_bytes(command, reqid, group, vmoid, length, vmo_offset, dev_offset);
            Some(Ask::Send { bytes })
        }
        Call::Answer(..) => Some(Ask::WaitFor {
            total: answers.saturating_add(1),
        }),
        Call::Show(id, block, bytes) => Some(Ask::Show {
            id,
            block,
            count: bytes.len().min(9) as u32,
        }),
        Call::Drain => None,
        Call::Abort => None,
    }
}

fn plan(alloc: Global, lists: &Lists) -> Result<Plan, Fail> {
    let mut asks = Vec::new(alloc);
    let mut answers: u64 = 0;
    for call in lists.log {
        if let Some(ask) = ask(*call, answers) {
            if let Ask::WaitFor { total } = ask {
                answers = total;
            }
            asks.push(ask)?;
        }
    }
    Ok(Plan {
        part: 1,
        asks,
        finish: lists.finish,
    })
}

/// Each call of the base report, and a wait for each answer, where the first client is asked for
/// this before.
pub fn plans(alloc: Global, first: Option<Ask>) -> Result<Vec<Plan>, Fail> {
    let mut plans = Vec::new(alloc);
    for lists in &SESSIONS {
        plans.push(plan(alloc, lists)?)?;
    }
    if let Some(ask) = first {
        if let Some(plan) = plans.first_mut() {
            plan.asks.insert(0, ask)?;
        }
    }
    Ok(plans)
}
