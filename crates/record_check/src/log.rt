//! What a client's log tells.
ghost use Rattle.std.specs.Prelude.{◌≡◌, length, IfOk};
ghost use Rattle.host_record.specs.Request.{request_of};
ghost use Rattle.host_model.specs.Log.{sent, sent_bytes, received, received_bytes, requests};
ghost use Rattle.host_model.specs.Log.{request_at};

use host_model::Event;
use host_record::Request;
use std::alloc::{AllocError, Global};

// The record that was sent.
fn record_sent(event: &Event) -> Option<[u8; 32]>
    ensures { result ≡ sent_bytes event.now }
{
    match event {
        Event::Sent { bytes, .. } => Some(*bytes),
        _ => None,
    }
}

// The answer that was received.
fn answer_received(event: &Event) -> Option<[u8; 32]>
    ensures { result ≡ received_bytes event.now }
{
    match event {
        Event::Received { bytes } => Some(*bytes),
        _ => None,
    }
}

/// How many records were sent.
pub fn sent_count(log: &[Event]) -> usize
    ensures { result ≡ length (sent log.now) }
{
    log.iter().filter_map(record_sent).count()
}

/// The answers received.
pub fn answers_received(alloc: Global, log: &[Event]) -> Result<Vec<[u8; 32]>, AllocError>
    ensures { IfOk result (λ v. v.items ≡ received log.now) }
{
    log.iter().filter_map(answer_received).collect(alloc)
}

// The records sent.
fn records_sent(alloc: Global, log: &[Event]) -> Result<Vec<[u8; 32]>, AllocError>
    ensures { IfOk result (λ v. v.items ≡ sent log.now) }
{
    log.iter().filter_map(record_sent).collect(alloc)
}

fn decoded(bytes: &[u8; 32]) -> Request
    ensures { result ≡ request_of bytes.now }
{
    Request::from_bytes(bytes)
}

/// The requests sent.
pub fn requests_sent(alloc: Global, log: &[Event]) -> Result<Vec<Request>, AllocError>
    ensures { IfOk result (λ v. v.items ≡ requests log.now) }
{
    let records = records_sent(alloc, log)?;
    records.iter().map(decoded).collect(alloc)
}

/// The request of that index; one of zeros past the last.
pub fn request(rs: &[Request], i: usize) -> Request
    ensures { result ≡ request_at rs.now i }
{
    rs.get(i).copied().unwrap_or(Request {
        command: 0,
        reqid: 0,
        group: 0,
        vmoid: 0,
        length: 0,
        vmo_offset: 0,
        dev_offset: 0,
    })
}
