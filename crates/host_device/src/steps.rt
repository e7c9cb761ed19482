// A step of a cache, and its entry.
ghost use Rattle.std.specs.Prelude.{◌≡◌, ◌+◌, ◌<◌, ◌++◌, [], ◌∷◌, false, length, IfOk, IsErrOf};
ghost use Rattle.host_block.specs.declared.op.Op.TheVariants.{Read};
ghost use Rattle.host_block.specs.Changes.{is_read};
ghost use Rattle.host_cache.specs.Seen.{shape_of, HasFaulted};
ghost use Rattle.host_model.specs.Changes.{changes_of};
ghost use Rattle.host_device.specs.Answers.{answered, step_by, step_entry};
ghost use Rattle.host_device.specs.CacheSteps.{CallsCache, HasContentBy, AreGiven};
ghost use Rattle.host_device.specs.Calls.{IsCacheCall};
ghost use Rattle.host_device.specs.Entries.{IsOnDisk, IsPiece, answer_alone, entries_added};

use crate::cache_calls::{BlockRead, Stored, call_cache, read};
use crate::error::StepError;
use host_block::{Oom, Op};
use host_cache::Cache;
use host_io::Disk;
use host_log::SwitchLog;
use host_model::{SharedBytes, Step};
use std::alloc::Global;

/// For whom a step is made.
#[derive(Drop)]
pub struct Owner {
    pub hand: u32,
    pub session: u32,
    pub index: u32,
    pub k: u32,
}

/// Makes the call of the cache that the op names, no read, and enters it.
pub fn make_step<D: Disk>(
    cache: &mut Cache<D>,
    steps: &mut SwitchLog<Step>,
    owner: Owner,
    op: Op,
    b: u64,
    bytes: SharedBytes,
) -> Result<(), StepError>
    requires room { length steps.old.items < steps.old.room }
    requires kind { is_read op ≡ false }
    requires block { IsOnDisk op b (shape_of cache.old).blocks }
    requires piece { IsPiece op (length bytes) (shape_of cache.old).size }
    ensures entry { steps.new
        ≡ record steps.old
        { items = steps.old.items ++ entries_added result (step_entry owner op b bytes) } }
    ensures calls { CallsCache
        (IsCacheCall op (shape_of cache.old).blocks (shape_of cache.old).size b bytes) cache.old
        result cache.new }
    ensures gives { AreGiven (changes_of (entries_added result (step_entry owner op b bytes)))
        cache.old }
    ensures content { HasContentBy (changes_of (entries_added result (step_entry owner op b bytes)))
        cache.old cache.new }
    ensures shape { shape_of cache.new ≡ shape_of cache.old }
    ensures fault { IsErrOf result StepError.Fault → HasFaulted cache.old cache.new }
{
    match call_cache(cache, op, b, bytes) {
        Ok(stored) => enter(steps, owner, op, b, stored),
        Err(Oom) => Err(StepError::Oom),
    }
}

/// Reads a block through the cache, and enters it.
pub fn make_read<D: Disk>(
    alloc: Global,
    cache: &mut Cache<D>,
    steps: &mut SwitchLog<Step>,
    owner: Owner,
    b: u64,
    into: &mut [u8],
) -> Result<SharedBytes, StepError>
    requires room { length steps.old.items < steps.old.room }
    requires block { b < (shape_of cache.old).blocks }
    requires piece { length into.old ≡ (shape_of cache.old).size }
    ensures bytes { IfOk result (λ bytes. bytes ≡ into.new) }
    ensures entry { steps.new
        ≡ record steps.old {
          items = steps.old.items
              ++ entries_added (answer_alone result) (step_entry owner Read b into.new);
        } }
    ensures calls { CallsCache
        (IsCacheCall Read (shape_of cache.old).blocks (shape_of cache.old).size b into.new)
        cache.old (answer_alone result) cache.new }
    ensures gives { AreGiven
        (changes_of (entries_added (answer_alone result) (step_entry owner Read b into.new)))
        cache.old }
    ensures content { HasContentBy
        (changes_of (entries_added (answer_alone result) (step_entry owner Read b into.new)))
        cache.old cache.new }
    ensures shape { shape_of cache.new ≡ shape_of cache.old }
    ensures fault { IsErrOf (answer_alone result) StepError.Fault → HasFaulted cache.old cache.new }
{
    match read(alloc, cache, b, into) {
        Ok(found) => {
            let BlockRead { stored, bytes } = found;
            let answer = enter(steps, owner, Op::Read, b, stored);
            with_bytes(answer, bytes)
        }
        Err(Oom) => Err(StepError::Oom),
    }
}

// These bytes, where the step succeeded.
fn with_bytes(answer: Result<(), StepError>, bytes: SharedBytes) -> Result<SharedBytes, StepError>
    ensures answer { answer_alone result ≡ answer }
    ensures bytes { IfOk result (λ given. given ≡ bytes) }
{
    match answer {
        Ok(()) => Ok(bytes),
        Err(error) => Err(error),
    }
}

// Enters a step, and answers whether it failed.
fn enter(
    steps: &mut SwitchLog<Step>,
    owner: Owner,
    op: Op,
    b: u64,
    stored: Stored,
) -> Result<(), StepError>
    requires { length steps.old.items < steps.old.room }
    ensures entry { steps.new
        ≡ record steps.old { items = steps.old.items ++ step_by owner op b stored ∷ [] } }
    ensures answer { result ≡ answered stored.faulted }
{
    let Stored { bytes, faulted } = stored;
    steps.push(Step {
        hand: owner.hand,
        session: owner.session,
        index: owner.index,
        k: owner.k,
        op,
        block: b,
        bytes,
        faulted,
    });
    if faulted {
        Err(StepError::Fault)
    } else {
        Ok(())
    }
}
