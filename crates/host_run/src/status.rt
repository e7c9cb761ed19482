//! How a run ends.
ghost use Rattle.std.specs.Prelude.{◌≡◌};
ghost use Rattle.host_run.specs.Statuses.{run_status_number};

use host_script::ScriptCause;
use host_start::Limit;

/// How a run ended.
#[derive(Clone, Copy, Debug, PartialEq, Eq)]
pub enum RunStatus {
    Done,
    /// The step of the closing flush is faulted.
    ClosingFault,
    BadWords,
    NoTable,
    BadScript { line: u64, cause: ScriptCause },
    /// The disk failed before the sessions began.
    DiskFault,
    ScriptFault,
    SinkFault,
    OutOfMemory,
    TooLarge { what: Limit },
    /// The first session that names a partition which isn't served.
    NoPart { session: u32, part: u32 },
}

impl RunStatus {
    /// The status that the program ends with.
    pub fn number(self) -> u8
        ensures { result ≡ run_status_number self }
    {
        match self {
            RunStatus::Done => 0,
            RunStatus::ClosingFault => 1,
            RunStatus::BadWords => 2,
            RunStatus::NoTable => 3,
            RunStatus::BadScript { .. } => 4,
            RunStatus::DiskFault => 5,
            RunStatus::ScriptFault => 6,
            RunStatus::SinkFault => 7,
            RunStatus::OutOfMemory => 8,
            RunStatus::TooLarge { .. } => 9,
            RunStatus::NoPart { .. } => 10,
        }
    }
}
