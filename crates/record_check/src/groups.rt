//! Which records are answered together.
ghost use Rattle.std.specs.Prelude.{◌≡◌, ◌<◌, length, take, IfOk};
ghost use Rattle.host_model.specs.Groups.{is_member, is_closing, is_owing, closings, instance_of};
ghost use Rattle.host_model.specs.Groups.{same_instance, answers_for, answered_by, owed};
ghost use Rattle.host_model.specs.Groups.{owing_record};

use crate::log::request;
use host_record::Request;
use std::alloc::{AllocError, Global};

/// Whether the record is a member of a group.
pub fn member(r: &Request) -> bool
    ensures { result ≡ is_member r.now }
{
    r.is_grouped() && r.group <= 7
}

// Whether it closes its group.
fn closes_group(r: &Request) -> bool
    ensures { result ≡ is_closing r.now }
{
    member(r) && r.is_last()
}

/// Whether it is owed an answer of its own.
pub fn owes_answer(r: &Request) -> bool
    ensures { result ≡ is_owing r.now }
{
    !member(r) || closes_group(r)
}

// How many of the first n requests closed the group.
fn closings_before(rs: &[Request], n: usize, group: u16) -> usize
    ensures { result ≡ closings group (take n rs.now) }
{
    rs.iter()
        .take(n)
        .filter(|r| closes_group(r) && r.group == group)
        .count()
}

// The instance of a member: its group, and how often that was closed before.
fn instance(rs: &[Request], i: usize) -> Option<(u16, usize)>
    ensures { result ≡ instance_of rs.now i }
{
    let r = request(rs, i);
    if member(&r) {
        Some((r.group, closings_before(rs, i, r.group)))
    } else {
        None
    }
}

fn is_same(a: Option<(u16, usize)>, b: Option<(u16, usize)>) -> bool
    ensures { result ≡ same_instance a b }
{
    match (a, b) {
        (Some(a), Some(b)) => a.0 == b.0 && a.1 == b.1,
        _ => false,
    }
}

// Whether the answer to record i is the answer to record k.
fn answers_record(rs: &[Request], i: usize, k: usize) -> bool
    ensures { result ≡ answers_for rs.now i k }
{
    let r = request(rs, i);
    if member(&r) {
        closes_group(&r) && is_same(instance(rs, i), instance(rs, k))
    } else {
        i == k
    }
}

/// The records that the answer to record i answers.
pub fn answered(alloc: Global, rs: &[Request], i: usize) -> Result<Vec<usize>, AllocError>
    requires { i < length rs.now }
    ensures { IfOk result (λ v. v.items ≡ answered_by rs.now i) }
{
    (0..i + 1)
        .filter(|k| answers_record(rs, i, *k))
        .collect(alloc)
}

/// How many records are owed an answer.
pub fn owed_count(rs: &[Request]) -> usize
    ensures { result ≡ length (owed rs.now) }
{
    (0..rs.len())
        .filter(|i| owes_answer(&request(rs, *i)))
        .count()
}

/// The record whose answer is that to record k.
pub fn owing_record_of(rs: &[Request], k: usize) -> Option<usize>
    ensures { result ≡ owing_record rs.now k }
{
    (0..rs.len()).find(|i| answers_record(rs, *i, k))
}
