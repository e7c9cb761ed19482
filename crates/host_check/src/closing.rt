//! Whether the steps of a run are those of its sessions and then the closing flush.
ghost use Rattle.std.specs.Prelude.{◌≡◌, ◌↔◌, ◌++◌, IsTrue, filter, IfOk, OnOk};
ghost use Rattle.host_report.specs.Lawful.{closing_flush, closing_steps, is_of_sessions};

use buffer_check::are_equal;
use host_block::{Oom, Op};
use host_model::{SharedBytes, Step};
use host_report::Closing;
use record_check::push_if;
use std::alloc::Global;

fn is_op(a: Op, b: Op) -> bool
    ensures { IsTrue result ↔ (a ≡ b) }
{
    a == b
}

fn is_same(a: &Step, b: &Step) -> bool
    ensures { IsTrue result ↔ (a.now ≡ b.now) }
{
    a.hand == b.hand
        && a.session == b.session
        && a.index == b.index
        && a.k == b.k
        && is_op(a.op, b.op)
        && a.block == b.block
        && are_equal(&a.bytes, &b.bytes)
        && a.faulted == b.faulted
}

fn are_same(these: &[Step], those: &[Step]) -> bool
    ensures { IsTrue result ↔ (these.now ≡ those.now) }
{
    match (these, those) {
        ([], []) => true,
        ([a, these @ ..], [b, those @ ..]) => is_same(a, b) && are_same(these, those),
        _ => false,
    }
}

fn is_of_one(step: &Step, n: usize) -> bool
    ensures { result ≡ is_of_sessions n step.now }
{
    1 <= step.session && step.session as usize <= n
}

// The steps of the first n sessions.
#[tactic(auto, using(std::proofs::lemmas::List::Elements::filter_more))]
fn of_sessions(alloc: Global, steps: &[Step], n: usize) -> Result<Vec<Step>, Oom>
    ensures { IfOk result (λ v. v.items ≡ filter (is_of_sessions n) steps.now) }
{
    let mut list = Vec::new(alloc);
    for step in steps {
        push_if(&mut list, step, is_of_one(step, n))?;
    }
    Ok(list)
}

fn flush(faulted: bool) -> Step
    ensures { result ≡ closing_flush faulted }
{
    Step {
        hand: 0,
        session: 0,
        index: 0,
        k: 0,
        op: Op::Flush,
        block: 0,
        bytes: SharedBytes::empty(),
        faulted,
    }
}

fn push_closing(list: &mut Vec<Step>, closing: Closing) -> Result<(), Oom>
    ensures { OnOk result (list.new.items ≡ list.old.items ++ closing_steps closing) }
{
    let step = match closing {
        Closing::Good => flush(false),
        Closing::Fault => flush(true),
        Closing::Cut => return Ok(()),
        Closing::NoMemory => return Ok(()),
    };
    match list.push(step) {
        Ok(()) => Ok(()),
        Err(_) => Err(Oom),
    }
}

/// Whether the steps are those of the first n sessions and then the closing flush.
pub fn ends_with_closing(
    alloc: Global,
    steps: &[Step],
    n: usize,
    closing: Closing,
) -> Result<bool, Oom>
    ensures { IfOk result (λ b.
        IsTrue b ↔ (steps.now ≡ filter (is_of_sessions n) steps.now ++ closing_steps closing)) }
{
    let mut expected = of_sessions(alloc, steps, n)?;
    push_closing(&mut expected, closing)?;
    Ok(are_same(steps, &expected))
}
