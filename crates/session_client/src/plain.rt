//! The plain list of what a hand took, by which the plain judge has each record end.
ghost use Rattle.std.specs.Prelude.{◌≡◌, [], ◌∷◌, ◌++◌, Some, IfOk, OnOk, IfSome, OnSome};
ghost use Rattle.session_client.specs.Plain.{IsPlainEndOr, end_under, log_of, sent_as};
ghost use Rattle.session_client.specs.Plain.{verdict_next};

use crate::deed::Deed;
use host_block::Range;
use host_model::{Event, Verdict};
use host_record::{Request, Status};
use record_check::verdicts_of;
use std::alloc::{AllocError, Global};

/// What a hand took, and what its client is to log.
#[derive(Drop)]
pub struct PlainList {
    pub(crate) alloc: Global,
    pub(crate) part: Range,
    pub(crate) log: Vec<Event>,
    pub(crate) taken: Vec<Request>,
}

impl PlainList {
    /// Nothing was taken yet. The client does these things, and may send so many records.
    pub fn new(
        alloc: Global,
        part: Range,
        records: u32,
        deeds: &[Deed],
    ) -> Result<PlainList, AllocError>
        ensures log { IfOk result
            (λ list. (list.part ≡ part) × (list.log.items ≡ log_of records 0 0 deeds.now)) }
        ensures taken { IfOk result (λ list. list.taken.items ≡ []) }
    {
        let mut log = Vec::new(alloc);
        tell(&mut log, records, deeds, 0, 0)?;
        let taken = Vec::new(alloc);
        Ok(PlainList {
            alloc,
            part,
            log,
            taken,
        })
    }

    /// Takes note of a record, and tells how it ends by the plain verdict on it. For want of memory
    /// that is `NoMemory`, which no verdict gives.
    pub fn end_of(&mut self, request: Request) -> Status
        ensures { IsPlainEndOr self.old self.new request result }
    {
        match self.verdict_on(request) {
            Some(verdict) => end_under(verdict),
            None => Status::NoMemory,
        }
    }

    // Takes note of a record, and gives the plain verdict on it; `None` for want of memory.
    fn verdict_on(&mut self, request: Request) -> Option<Verdict>
        ensures verdict { IfSome result (λ v.
            verdict_next self.old.log.items self.old.part self.old.taken.items request ≡ Some v) }
        ensures noted { OnSome result
            (self.new.taken.items ≡ self.old.taken.items ++ request ∷ []) }
        ensures log { (self.new.log ≡ self.old.log) × (self.new.part ≡ self.old.part) }
    {
        let before = self.taken.len();
        if self.taken.push(request).is_err() {
            return None;
        }
        let count = self.taken.len();
        let Ok(verdicts) = verdicts_of(self.alloc, &self.log, &self.taken, &self.part, count) else {
            return None;
        };
        verdicts.get(before).copied()
    }
}

/// How a record with this verdict ends, where nothing is carried out.
pub fn end_under(verdict: Verdict) -> Status
    ensures { result ≡ end_under verdict }
{
    match verdict {
        Verdict::Accepted => Status::Ok,
        Verdict::Refused(status) => status,
    }
}

// Record i of a log.
#[tactic(auto, unfolding(crate::specs::Plain::sent_as))]
fn sent_as(i: u32, request: &Request) -> Event
    ensures { result ≡ sent_as i request.now }
{
    Event::Sent {
        index: i,
        bytes: request.to_bytes(),
    }
}

// Adds what a client that may send so many records logs of these things, after it was given so many
// buffers and sent so many records.
fn tell(
    log: &mut Vec<Event>,
    records: u32,
    deeds: &[Deed],
    given: u16,
    sent: u32,
) -> Result<(), AllocError>
    ensures { OnOk result (log.new.items ≡ log.old.items ++ log_of records given sent deeds.now) }
{
    match deeds {
        [] => Ok(()),
        [deed, rest @ ..] => match *deed {
            Deed::Attach(pages) => {
                if given == 65_535 {
                    return tell(log, records, rest, given, sent);
                }
                let id = given + 1;
                log.push(Event::Attached { pages, id })?;
                tell(log, records, rest, id, sent)
            }
            Deed::Send(request) => {
                if sent >= records {
                    return tell(log, records, rest, given, sent);
                }
                log.push(sent_as(sent, &request))?;
                tell(log, records, rest, given, sent + 1)
            }
            Deed::Fill { .. } | Deed::Show { .. } | Deed::Await(_) => {
                tell(log, records, rest, given, sent)
            }
        },
    }
}
