// What the logs of a run count.
ghost use Rattle.std.specs.Prelude.{◌≡◌, count_by};
ghost use Rattle.host_report.specs.Summary.{answers_received, good_answers, failed_answers};
ghost use Rattle.host_report.specs.Summary.{is_failed_event, is_good_answer, is_good_event};
ghost use Rattle.host_report.specs.Summary.{is_received_event, is_sent_event, records_sent};

use crate::session::SessionReport;
use byteorder::{ByteOrder, LittleEndian};
use host_model::Event;

/// The numbers of records and answers of a run.
#[derive(Clone, Copy)]
pub struct Counts {
    pub records: u128,
    pub answers: u128,
    pub good: u128,
    pub failed: u128,
}

/// The counts of these sessions. The sum of so many counts fits in 128 bits.
pub fn counts_of(sessions: &[SessionReport]) -> Counts
    ensures records { result.records ≡ records_sent sessions.now }
    ensures answers { result.answers ≡ answers_received sessions.now }
    ensures good { result.good ≡ good_answers sessions.now }
    ensures failed { result.failed ≡ failed_answers sessions.now }
{
    let mut records = 0u128;
    let mut answers = 0u128;
    let mut good = 0u128;
    let mut failed = 0u128;
    for session in sessions {
        let log = session.log.as_slice();
        records += sent_in(log) as u128;
        answers += received_in(log) as u128;
        good += good_in(log) as u128;
        failed += failed_in(log) as u128;
    }
    Counts {
        records,
        answers,
        good,
        failed,
    }
}

fn sent_in(log: &[Event]) -> usize
    ensures { result ≡ count_by is_sent_event log.now }
{
    log.iter().filter(|event| is_sent(event)).count()
}

fn received_in(log: &[Event]) -> usize
    ensures { result ≡ count_by is_received_event log.now }
{
    log.iter().filter(|event| is_received(event)).count()
}

fn good_in(log: &[Event]) -> usize
    ensures { result ≡ count_by is_good_event log.now }
{
    log.iter().filter(|event| is_good(event)).count()
}

fn failed_in(log: &[Event]) -> usize
    ensures { result ≡ count_by is_failed_event log.now }
{
    log.iter().filter(|event| is_failed(event)).count()
}

fn is_sent(event: &Event) -> bool
    ensures { result ≡ is_sent_event event.now }
{
    matches!(event, Event::Sent { .. })
}

fn is_received(event: &Event) -> bool
    ensures { result ≡ is_received_event event.now }
{
    matches!(event, Event::Received { .. })
}

fn is_good(event: &Event) -> bool
    ensures { result ≡ is_good_event event.now }
{
    match event {
        Event::Received { bytes } => has_status_zero(bytes),
        _ => false,
    }
}

fn is_failed(event: &Event) -> bool
    ensures { result ≡ is_failed_event event.now }
{
    match event {
        Event::Received { bytes } => !has_status_zero(bytes),
        _ => false,
    }
}

fn has_status_zero(bytes: &[u8; 32]) -> bool
    ensures { result ≡ is_good_answer bytes.now }
{
    LittleEndian::read_u32(bytes) == 0
}
