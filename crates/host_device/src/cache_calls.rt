// The call of the cache that a step makes, and what is entered of it.
ghost use Rattle.std.specs.Prelude.{◌≡◌, ◌<◌, ℕ, List, length, false, IfOk, OnErr, IsErrOf};
ghost use Rattle.std.specs.Prelude.{MatchResult};
ghost use Rattle.host_block.specs.declared.op.Op.TheVariants.{Read, Write, Trim, Flush};
ghost use Rattle.host_block.specs.Disk.{refused};
ghost use Rattle.host_block.specs.Changes.{is_read};
ghost use Rattle.host_cache.specs.Outcomes.{cache_outcome};
ghost use Rattle.host_cache.specs.Seen.{shape_of, HasFaulted};
ghost use Rattle.host_device.specs.Answers.{step_outcome, step_answer, change_by, changes_by};
ghost use Rattle.host_device.specs.Answers.{stored_of};
ghost use Rattle.host_device.specs.CacheSteps.{CallsCache, HasContentBy, GivesContent};
ghost use Rattle.host_device.specs.Calls.{IsCacheCall};
ghost use Rattle.host_device.specs.Entries.{IsOnDisk, IsPiece, entry_bytes};

use crate::error::StepError;
use host_block::{Oom, Op};
use host_cache::{Cache, CacheError};
use host_io::Disk;
use host_model::SharedBytes;
use std::alloc::Global;

/// What is entered of a call that was made.
#[derive(Drop)]
pub struct Stored {
    pub bytes: SharedBytes,
    pub faulted: bool,
}

/// What is entered of a read, and the same bytes for who asked for them.
#[derive(Drop)]
pub struct BlockRead {
    pub stored: Stored,
    pub bytes: SharedBytes,
}

// Whether a call of the cache failed, where it wasn't refused memory.
fn faulted_by(answer: Result<(), CacheError>) -> Result<bool, Oom>
    ensures { MatchResult result (λ faulted. cache_outcome answer ≡ step_outcome faulted)
        (λ _. cache_outcome answer ≡ refused) }
{
    match answer {
        Ok(()) => Ok(false),
        Err(CacheError::Disk) => Ok(true),
        Err(CacheError::Oom) => Err(Oom),
    }
}

// The bytes that are entered of a read, twice.
fn bytes_read(alloc: Global, faulted: bool, bytes: &[u8]) -> Result<(SharedBytes, SharedBytes), Oom>
    ensures entered { IfOk result (λ both. both.0 ≡ entry_bytes Read bytes.now faulted) }
    ensures given { IfOk result (λ both. both.1 ≡ both.0) }
    ensures refused { OnErr result (faulted ≡ false) }
{
    if faulted {
        return Ok((SharedBytes::empty(), SharedBytes::empty()));
    }
    let entered = SharedBytes::copied(alloc, bytes)?;
    let given = entered.share()?;
    Ok((entered, given))
}

/// Reads block `b` into `into`.
pub fn read<D: Disk>(
    alloc: Global,
    cache: &mut Cache<D>,
    b: u64,
    into: &mut [u8],
) -> Result<BlockRead, Oom>
    requires block { b < (shape_of cache.old).blocks }
    requires piece { length into.old ≡ (shape_of cache.old).size }
    ensures calls { CallsCache
        (IsCacheCall Read (shape_of cache.old).blocks (shape_of cache.old).size b into.new)
        cache.old (step_answer (stored_of result)) cache.new }
    ensures bytes { IfOk result
        (λ read. read.stored.bytes ≡ entry_bytes Read into.new read.stored.faulted) }
    ensures given { IfOk result (λ read. read.bytes ≡ read.stored.bytes) }
    ensures gives { IfOk result (λ read. GivesContent (change_by Read b read.stored) cache.old) }
    ensures content { HasContentBy (changes_by Read b (stored_of result)) cache.old cache.new }
    ensures shape { shape_of cache.new ≡ shape_of cache.old }
    ensures fault { IsErrOf (step_answer (stored_of result)) StepError.Fault
        → HasFaulted cache.old cache.new }
{
    let faulted = faulted_by(cache.read(b, into))?;
    let (entered, bytes) = bytes_read(alloc, faulted, into)?;
    let stored = Stored {
        bytes: entered,
        faulted,
    };
    Ok(BlockRead { stored, bytes })
}

fn write<D: Disk>(cache: &mut Cache<D>, b: u64, bytes: SharedBytes) -> Result<Stored, Oom>
    requires block { b < (shape_of cache.old).blocks }
    requires piece { length bytes ≡ (shape_of cache.old).size }
    ensures calls { CallsCache
        (IsCacheCall Write (shape_of cache.old).blocks (shape_of cache.old).size b bytes) cache.old
        (step_answer result) cache.new }
    ensures bytes { IfOk result (λ stored. stored.bytes ≡ entry_bytes Write bytes stored.faulted) }
    ensures gives { IfOk result (λ stored. GivesContent (change_by Write b stored) cache.old) }
    ensures content { HasContentBy (changes_by Write b result) cache.old cache.new }
    ensures shape { shape_of cache.new ≡ shape_of cache.old }
    ensures fault { IsErrOf (step_answer result) StepError.Fault → HasFaulted cache.old cache.new }
{
    let faulted = faulted_by(cache.write(b, bytes.as_slice()))?;
    Ok(Stored { bytes, faulted })
}

fn trim<D: Disk>(cache: &mut Cache<D>, b: u64) -> Result<Stored, Oom>
    requires block { b < (shape_of cache.old).blocks }
    ensures calls { (bytes : List ℕ)
        → CallsCache
        (IsCacheCall Trim (shape_of cache.old).blocks (shape_of cache.old).size b bytes) cache.old
        (step_answer result) cache.new }
    ensures bytes { (bytes : List ℕ)
        → IfOk result (λ stored. stored.bytes ≡ entry_bytes Trim bytes stored.faulted) }
    ensures gives { IfOk result (λ stored. GivesContent (change_by Trim b stored) cache.old) }
    ensures content { HasContentBy (changes_by Trim b result) cache.old cache.new }
    ensures shape { shape_of cache.new ≡ shape_of cache.old }
    ensures fault { IsErrOf (step_answer result) StepError.Fault → HasFaulted cache.old cache.new }
{
    let faulted = faulted_by(cache.trim(b))?;
    let bytes = SharedBytes::empty();
    Ok(Stored { bytes, faulted })
}

fn flush<D: Disk>(cache: &mut Cache<D>) -> Result<Stored, Oom>
    ensures calls { (b : ℕ) (bytes : List ℕ)
        → CallsCache
        (IsCacheCall Flush (shape_of cache.old).blocks (shape_of cache.old).size b bytes)
        cache.old (step_answer result) cache.new }
    ensures bytes { (bytes : List ℕ)
        → IfOk result (λ stored. stored.bytes ≡ entry_bytes Flush bytes stored.faulted) }
    ensures gives { (b : ℕ)
        → IfOk result (λ stored. GivesContent (change_by Flush b stored) cache.old) }
    ensures content { (b : ℕ) → HasContentBy (changes_by Flush b result) cache.old cache.new }
    ensures shape { shape_of cache.new ≡ shape_of cache.old }
    ensures fault { IsErrOf (step_answer result) StepError.Fault → HasFaulted cache.old cache.new }
{
    let faulted = faulted_by(cache.flush())?;
    let bytes = SharedBytes::empty();
    Ok(Stored { bytes, faulted })
}

/// Makes the call that the op names, no read, of block `b` with these bytes.
pub fn call_cache<D: Disk>(
    cache: &mut Cache<D>,
    op: Op,
    b: u64,
    bytes: SharedBytes,
) -> Result<Stored, Oom>
    requires kind { is_read op ≡ false }
    requires block { IsOnDisk op b (shape_of cache.old).blocks }
    requires piece { IsPiece op (length bytes) (shape_of cache.old).size }
    ensures calls { CallsCache
        (IsCacheCall op (shape_of cache.old).blocks (shape_of cache.old).size b bytes) cache.old
        (step_answer result) cache.new }
    ensures bytes { IfOk result (λ stored. stored.bytes ≡ entry_bytes op bytes stored.faulted) }
    ensures gives { IfOk result (λ stored. GivesContent (change_by op b stored) cache.old) }
    ensures content { HasContentBy (changes_by op b result) cache.old cache.new }
    ensures shape { shape_of cache.new ≡ shape_of cache.old }
    ensures fault { IsErrOf (step_answer result) StepError.Fault → HasFaulted cache.old cache.new }
{
    match op {
        Op::Read => unreachable!(),
        Op::Write => write(cache, b, bytes),
        Op::Trim => trim(cache, b),
        Op::Flush => flush(cache),
    }
}
