//! How one session ended.
ghost use Rattle.std.specs.Prelude.{◌≡◌, ◌<◌, true, length};
ghost use Rattle.host_session.specs.Keeping.{AreKeptAs};
ghost use Rattle.host_worker.specs.SessionEnds.{HasPutReport, IsSessionReportOf};

use host_block::Range;
use host_log::{SwitchLog, Told};
use host_record::Finish;
use host_report::SessionReport;
use host_session::SessionLogs;

/// How the sessions ended, by their numbers.
pub type SessionEnds = SwitchLog<SessionReport>;

/// What a session ended with: what a report has of it, but that its histories may not be kept.
#[derive(Drop)]
pub struct SessionEnd {
    pub number: u32,
    pub part: u32,
    pub range: Range,
    pub logs: SessionLogs,
    pub finish: Finish,
}

impl Told for SessionEnd {
    ghost use Rattle.host_worker.specs.SessionEnds.{report_of};

    type Entry = SessionReport;

    ghost entry = { report_of };
}

impl SessionEnd {
    // The report of a session whose histories are kept.
    fn into_report(self) -> SessionReport
        requires { AreKeptAs true self.logs }
        ensures { IsSessionReportOf self result }
    {
        let SessionEnd {
            number,
            part,
            range,
            logs,
            finish,
        } = self;
        let SessionLogs { log, rows, memory } = logs;
        let Some(log) = log.into_list() else {
            unreachable!()
        };
        let Some(taken) = rows.into_list() else {
            unreachable!()
        };
        let Some(memory) = memory.into_list() else {
            unreachable!()
        };
        SessionReport {
            number,
            part,
            range,
            log,
            taken,
            memory,
            finish,
        }
    }
}

/// Adds a session's end. Its histories are kept as the ends are.
pub(crate) fn put_end(ends: &mut SessionEnds, end: SessionEnd)
    requires room { length ends.old.items < ends.old.room }
    requires kept { AreKeptAs ends.old.kept end.logs }
    ensures { HasPutReport end ends.old ends.new }
{
    if ends.is_kept() {
        ends.push(end.into_report());
    } else {
        ends.note(&end);
    }
}
