//! Which parts of one session of a run are as they have to be.
ghost use Rattle.std.specs.Prelude.{◌≡◌, ◌↔◌, IsTrue, IfOk};
ghost use Rattle.host_model.specs.Order.{KeepsOrder};
ghost use Rattle.record_check.specs.Session.{session_with};
ghost use Rattle.host_check.specs.Had.{is_order_kept};
ghost use Rattle.host_check.specs.Parts.{TellsSession};

use crate::following::{all_follow_client, all_ordered};
use crate::parts::SessionParts;
use buffer_check::is_buffer_history;
use host_block::{Oom, Range};
use host_model::{Event, MemEvent, Step, TakenRow, Verdict};
use host_record::{Finish, Request};
use record_check::{
    is_answered, is_carried_out, is_taken_in_order, requests_sent, sent_count, verdicts_of,
};
use std::alloc::Global;

// The two tests of the order rule.
fn order_is_kept(
    alloc: Global,
    rs: &[Request],
    verdicts: &[Verdict],
    log: &[Event],
    rows: &[TakenRow],
    history: &[MemEvent],
    steps: &[Step],
) -> Result<bool, Oom>
    ensures { IfOk result
        (λ b. b ≡ is_order_kept rs.now verdicts.now log.now rows.now steps.now history.now) }
{
    let n = sent_count(log);
    let records = all_ordered(alloc, rs, verdicts, log, rows, steps, history, n)?;
    let client = all_follow_client(alloc, rs, verdicts, log, history, n)?;
    Ok(records & client)
}

/// Whether the order rule is kept.
pub fn keeps_order(
    alloc: Global,
    size: u32,
    part: &Range,
    log: &[Event],
    rows: &[TakenRow],
    history: &[MemEvent],
    steps: &[Step],
    finish: Finish,
) -> Result<bool, Oom>
    ensures { IfOk result (λ b.
        IsTrue b
        ↔ KeepsOrder (session_with size part.now log.now rows.now history.now steps.now finish)) }
{
    let Ok(rs) = requests_sent(alloc, log) else {
        return Err(Oom);
    };
    let Ok(verdicts) = verdicts_of(alloc, log, &rs, part, sent_count(log)) else {
        return Err(Oom);
    };
    let kept = order_is_kept(alloc, &rs, &verdicts, log, rows, history, steps)?;
    Ok(kept)
}

/// Which parts of a session with these lists are as they have to be: the bytes of a block, the
/// partition, the client's log, the records taken, what was done to the buffers, the device's steps
/// for the session, and how it was ended.
pub fn parts_of_lists(
    alloc: Global,
    size: u32,
    part: &Range,
    log: &[Event],
    rows: &[TakenRow],
    history: &[MemEvent],
    steps: &[Step],
    finish: Finish,
) -> Result<SessionParts, Oom>
    ensures { IfOk result (TellsSession
        (session_with size part.now log.now rows.now history.now steps.now finish)) }
{
    let Ok(taken) = is_taken_in_order(alloc, size, part, log, rows, history, steps, finish) else {
        return Err(Oom);
    };
    let carried = is_carried_out(alloc, size, part, log, rows, history, steps, finish)?;
    let Ok(answered) = is_answered(alloc, size, part, log, rows, history, steps, finish) else {
        return Err(Oom);
    };
    let buffers = is_buffer_history(alloc, size, part, log, rows, history, steps, finish)?;
    let ordered = keeps_order(alloc, size, part, log, rows, history, steps, finish)?;
    Ok(SessionParts {
        taken,
        carried,
        answered,
        buffers,
        ordered,
    })
}
