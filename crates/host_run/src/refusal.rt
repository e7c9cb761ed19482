//! Why a run is refused before its session begins.
ghost use Rattle.std.specs.Prelude.{◌≡◌};
ghost use Rattle.host_run.specs.Refusals.{refused_status, start_status};
ghost use Rattle.host_run.specs.declared.refusal.Refusal.TheVariants.{NoStart};
ghost use Rattle.host_start.specs.declared.error.StartError.TheVariants.{Oom as NoMemory};

use crate::status::RunStatus;
use host_start::StartError;

#[derive(Clone, Copy, Debug, PartialEq, Eq)]
pub enum Refusal {
    /// The words are outside the grammar.
    Words,
    NoStart { error: StartError },
}

impl Refusal {
    /// Memory was refused.
    pub fn memory() -> Refusal
        ensures { result ≡ NoStart NoMemory }
    {
        Refusal::NoStart {
            error: StartError::Oom,
        }
    }

    /// The status that it ends with.
    pub fn status(self) -> RunStatus
        ensures { result ≡ refused_status self }
    {
        match self {
            Refusal::Words => RunStatus::BadWords,
            Refusal::NoStart { error } => status_of(error),
        }
    }
}

fn status_of(error: StartError) -> RunStatus
    ensures { result ≡ start_status error }
{
    match error {
        StartError::Source => RunStatus::ScriptFault,
        StartError::BadScript { line, cause } => RunStatus::BadScript { line, cause },
        StartError::TooLarge { what } => RunStatus::TooLarge { what },
        StartError::Disk => RunStatus::DiskFault,
        StartError::NoTable => RunStatus::NoTable,
        StartError::NoPart { session, part } => RunStatus::NoPart { session, part },
        StartError::Oom => RunStatus::OutOfMemory,
    }
}
