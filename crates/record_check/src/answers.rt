//! The answers that a client is due.
ghost use Rattle.std.specs.Prelude.{◌≡◌, ◌<◌, ◌++◌, [], ◌∷◌, ◌&&◌, length, map, filter, nat_lt};
ghost use Rattle.std.specs.Prelude.{if◌then◌else◌, IfOk, OnOk};
ghost use Rattle.host_record.specs.Response.{response_bytes};
ghost use Rattle.host_record.specs.Status.{status_number};
ghost use Rattle.host_model.specs.Answers.{answer_bytes, is_failure, first_failure};
ghost use Rattle.host_model.specs.Groups.{is_member, is_owing, owed};
ghost use Rattle.host_model.specs.Log.{request_at};
ghost use Rattle.host_model.specs.Taking.{row_at};

use crate::groups::{answered, member, owes_answer};
use crate::log::request;
use host_model::{TakenRow, Verdict};
use host_record::{Request, Response, Status};
use std::alloc::{AllocError, Global};

/// The row of that index; one that failed past the last.
pub fn row(rows: &[TakenRow], i: usize) -> TakenRow
    ensures { result ≡ row_at rows.now i }
{
    rows.get(i).copied().unwrap_or(TakenRow {
        verdict: Verdict::Refused(Status::Io),
        outcome: Status::Io,
    })
}

fn outcome(rows: &[TakenRow], i: usize) -> Status
    ensures { result ≡ (row_at rows.now i).outcome }
{
    row(rows, i).outcome
}

fn failed(status: &Status) -> bool
    ensures { result ≡ is_failure status.now }
{
    !matches!(status, Status::Ok)
}

// How these records ended.
fn outcomes(alloc: Global, rows: &[TakenRow], records: &[usize]) -> Result<Vec<Status>, AllocError>
    ensures { IfOk result (λ v. v.items ≡ map (λ k. (row_at rows.now k).outcome) records.now) }
{
    records.iter().map(|k| outcome(rows, *k)).collect(alloc)
}

// The first of these that is a failure, else Ok.
fn first_failed(outcomes: &[Status]) -> Status
    ensures { result ≡ first_failure outcomes.now }
{
    match outcomes {
        [] => Status::Ok,
        [status, rest @ ..] => {
            if failed(status) {
                *status
            } else {
                first_failed(rest)
            }
        }
    }
}

// The status of the first of these records that failed.
fn status_of(alloc: Global, rows: &[TakenRow], records: &[usize]) -> Result<Status, AllocError>
    ensures { IfOk result
        (λ status. status ≡ first_failure (map (λ k. (row_at rows.now k).outcome) records.now)) }
{
    let outcomes = outcomes(alloc, rows, records)?;
    Ok(first_failed(&outcomes))
}

// The group that an answer names.
fn group_of(r: &Request) -> u16
    ensures { result ≡ (if is_member r.now then r.now.group else 0) }
{
    if member(r) { r.group } else { 0 }
}

// A response to these records. It has room for the low 32 bits of their number.
#[tactic(auto, using(crate::proofs::AnswerLemmas::low_count))]
fn response(status: Status, reqid: u32, group: u16, records: &[usize]) -> Response
    ensures { response_bytes result
        ≡ response_bytes (record {
          status = status_number status;
          reqid = reqid;
          group = group;
          count = length records.now;
        }) }
{
    Response {
        status: status.number(),
        reqid,
        group,
        count: (records.len() % 0x1_0000_0000) as u32,
    }
}

// The answer to record i.
fn answer_of(
    alloc: Global,
    rs: &[Request],
    rows: &[TakenRow],
    i: usize,
) -> Result<Response, AllocError>
    requires { i < length rs.now }
    ensures { IfOk result (λ a. response_bytes a ≡ answer_bytes rs.now rows.now i) }
{
    let r = request(rs, i);
    let records = answered(alloc, rs, i)?;
    let status = status_of(alloc, rows, &records)?;
    Ok(response(status, r.reqid, group_of(&r), &records))
}

/// The bytes of the answer to record i.
pub fn answer_to(
    alloc: Global,
    rs: &[Request],
    rows: &[TakenRow],
    i: usize,
) -> Result<[u8; 32], AllocError>
    requires { i < length rs.now }
    ensures { IfOk result (λ bytes. bytes ≡ answer_bytes rs.now rows.now i) }
{
    let answer = answer_of(alloc, rs, rows, i)?;
    Ok(answer.to_bytes())
}

// Adds the answer to record i, where it is due.
fn push_if_due(
    list: &mut Vec<[u8; 32]>,
    alloc: Global,
    rs: &[Request],
    rows: &[TakenRow],
    i: usize,
) -> Result<(), AllocError>
    requires { i < length rs.now }
    ensures { OnOk result (list.new.items
        ≡ list.old.items
        ++ (if is_owing (request_at rs.now i) && nat_lt i (length rows.now)
        then answer_bytes rs.now rows.now i ∷ [] else [])) }
{
    if owes_answer(&request(rs, i)) && i < rows.len() {
        list.push(answer_to(alloc, rs, rows, i)?)?;
    }
    Ok(())
}

/// The answers due.
#[tactic(auto, using(crate::proofs::AnswerLemmas::due_more))]
pub fn answers_due(
    alloc: Global,
    rs: &[Request],
    rows: &[TakenRow],
) -> Result<Vec<[u8; 32]>, AllocError>
    ensures { IfOk result (λ v.
        v.items
        ≡ map (answer_bytes rs.now rows.now)
        (filter (λ i. nat_lt i (length rows.now)) (owed rs.now))) }
{
    let mut list = Vec::new(alloc);
    for i in 0..rs.len() {
        push_if_due(&mut list, alloc, rs, rows, i)?;
    }
    Ok(list)
}
