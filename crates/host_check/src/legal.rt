//! Whether the steps are one legal history of an image.
ghost use Rattle.std.specs.Prelude.{◌≡◌, ◌↔◌, IsTrue, length, replicate, if◌then◌else◌, IfOk};
ghost use Rattle.std.specs.List.{list_all};
ghost use Rattle.std.specs.Str.{bytes_eq};
ghost use Rattle.host_block.specs.Changes.{changed, changes_block, put_by, IsLegal};
ghost use Rattle.host_block.specs.Disk.{block_at};
ghost use Rattle.host_model.specs.Changes.{change_of, changes_of};
ghost use Rattle.host_model.specs.Lists.{below};
ghost use Rattle.host_check.specs.Legal.{reads_after, reads_content};

use host_block::{Bytes, Oom, Op};
use host_model::Step;
use std::alloc::Global;

fn is_same(a: &[u8], b: &[u8]) -> bool
    ensures { result ≡ bytes_eq a.now b.now }
{
    a == b
}

// What the step leaves in block b, where `now` stood there and `zeros` is a block of zeros.
fn left_by<'a>(step: &'a Step, b: u64, now: &'a [u8], zeros: &'a [u8]) -> &'a [u8]
    requires { zeros.now ≡ replicate (length zeros.now) 0 }
    ensures { result.now
        ≡ (if changes_block (change_of step.now) b
        then put_by (length zeros.now) step.now.op step.now.bytes else now.now) }
{
    if step.faulted {
        return now;
    }
    if step.block != b {
        return now;
    }
    match step.op {
        Op::Write => step.bytes.as_slice(),
        Op::Trim => zeros,
        Op::Read => now,
        Op::Flush => now,
    }
}

// Whether block b has these bytes after the steps, where `now` stands there before them and `zeros`
// is a block of zeros.
fn is_content(steps: &[Step], b: u64, now: &[u8], zeros: &[u8], bytes: &[u8]) -> bool
    requires { zeros.now ≡ replicate (length zeros.now) 0 }
    ensures { result
        ≡ bytes_eq bytes.now (changed (length zeros.now) (changes_of steps.now) b now.now) }
{
    match steps {
        [] => is_same(bytes, now),
        [step, rest @ ..] => is_content(rest, b, left_by(step, b, now, zeros), zeros, bytes),
    }
}

// Block b of the image; none past its end.
fn block_of(image: &[Bytes], b: u64) -> &[u8]
    ensures { result.now ≡ block_at image.now b }
{
    match image.get(b as usize) {
        Some(block) => block.as_slice(),
        None => &[],
    }
}

// Whether the step has the bytes of its block's content after these steps, where `zeros` is a block
// of zeros.
fn has_content(image: &[Bytes], before: &[Step], step: &Step, zeros: &[u8]) -> bool
    requires zero { zeros.now ≡ replicate (length zeros.now) 0 }
    requires size { length zeros.now ≡ length (block_at image.now step.now.block) }
    ensures { result
        ≡ bytes_eq step.now.bytes (changed (length (block_at image.now step.now.block))
        (changes_of before.now) step.now.block (block_at image.now step.now.block)) }
{
    let now = block_of(image, step.block);
    is_content(before, step.block, now, zeros, step.bytes.as_slice())
}

fn zeros(alloc: Global, n: usize) -> Result<Vec<u8>, Oom>
    ensures { IfOk result (λ v. v.items ≡ replicate n 0) }
{
    match vec![in alloc; 0u8; n] {
        Ok(bytes) => Ok(bytes),
        Err(_) => Err(Oom),
    }
}

// Whether a step after these is no good read, or has the content of its block.
#[tactic(auto, using(crate::proofs::LegalLemmas::zeros_are, crate::proofs::LegalLemmas::zeros_length))]
fn reads_rightly(alloc: Global, image: &[Bytes], before: &[Step], step: &Step) -> Result<bool, Oom>
    ensures { IfOk result
        (λ b. b ≡ reads_after image.now (changes_of before.now) (change_of step.now)) }
{
    if step.faulted {
        return Ok(true);
    }
    match step.op {
        Op::Read => {
            let zeros = zeros(alloc, block_of(image, step.block).len())?;
            Ok(has_content(image, before, step, &zeros))
        }
        Op::Write => Ok(true),
        Op::Trim => Ok(true),
        Op::Flush => Ok(true),
    }
}

// Whether each step is.
fn all_read_rightly(alloc: Global, image: &[Bytes], steps: &[Step]) -> Result<bool, Oom>
    ensures { IfOk result (λ b.
        b ≡ list_all (reads_content image.now (changes_of steps.now)) (below (length steps.now))) }
{
    let mut all = true;
    for i in 0..steps.len() {
        let here = reads_rightly(alloc, image, &steps[..i], &steps[i])?;
        all = all & here;
    }
    Ok(all)
}

/// Whether the steps are one legal history of the image.
pub fn is_legal(alloc: Global, image: &[Bytes], steps: &[Step]) -> Result<bool, Oom>
    ensures { IfOk result (λ b. IsTrue b ↔ IsLegal image.now (changes_of steps.now)) }
{
    let legal = all_read_rightly(alloc, image, steps)?;
    Ok(legal)
}
