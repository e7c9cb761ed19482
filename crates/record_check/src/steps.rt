//! The steps of one session and of one record.
ghost use Rattle.std.specs.Prelude.{◌≡◌, ◌==◌, ◌++◌, [], ◌∷◌, filter, if◌then◌else◌, IfOk, OnOk};
ghost use Rattle.host_model.specs.Carrying.{steps_of};

use host_block::Oom;
use host_model::Step;
use std::alloc::Global;

// A step like this one.
fn copy_of(step: &Step) -> Result<Step, Oom>
    ensures { IfOk result (λ s. s ≡ step.now) }
{
    Ok(Step {
        hand: step.hand,
        session: step.session,
        index: step.index,
        k: step.k,
        op: step.op,
        block: step.block,
        bytes: step.bytes.share()?,
        faulted: step.faulted,
    })
}

/// Adds a copy of the step, where it is wanted.
pub fn push_if(list: &mut Vec<Step>, step: &Step, wanted: bool) -> Result<(), Oom>
    ensures { OnOk result
        (list.new.items ≡ list.old.items ++ (if wanted then step.now ∷ [] else [])) }
{
    if wanted {
        let step = copy_of(step)?;
        if list.push(step).is_err() {
            return Err(Oom);
        }
    }
    Ok(())
}

/// The steps for the session of this number.
#[tactic(auto, using(std::proofs::lemmas::List::Elements::filter_more))]
pub fn session_steps(alloc: Global, steps: &[Step], number: u32) -> Result<Vec<Step>, Oom>
    ensures { IfOk result (λ v. v.items ≡ filter (λ step. step.session == number) steps.now) }
{
    let mut list = Vec::new(alloc);
    for step in steps {
        push_if(&mut list, step, step.session == number)?;
    }
    Ok(list)
}

/// The steps of record i.
#[tactic(auto, using(std::proofs::lemmas::List::Elements::filter_more))]
pub fn record_steps(alloc: Global, steps: &[Step], i: usize) -> Result<Vec<Step>, Oom>
    ensures { IfOk result (λ v. v.items ≡ steps_of i steps.now) }
{
    let mut list = Vec::new(alloc);
    for step in steps {
        push_if(&mut list, step, step.index as usize == i)?;
    }
    Ok(list)
}
