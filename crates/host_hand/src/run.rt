// How a run of steps came out.
ghost use Rattle.std.specs.Prelude.{◌≡◌, Ok, Err};
ghost use Rattle.host_device.specs.declared.error.StepError.TheVariants as error;
ghost use Rattle.host_hand.specs.Runs.{status_by};

use host_device::StepError;
use host_record::Status;

/// What the last step of a run answered, and how long the device's history was after it.
#[derive(Drop)]
pub(crate) struct Run {
    pub(crate) answer: Result<(), StepError>,
    pub(crate) front: u64,
}

impl Run {
    // Memory was refused before the next step.
    pub(crate) fn refused(front: u64) -> Run
        ensures { (result.answer ≡ Err error.Oom) × (result.front ≡ front) }
    {
        Run {
            answer: Err(StepError::Oom),
            front,
        }
    }

    pub(crate) fn status(&self) -> Status
        ensures { result ≡ status_by self.now.answer }
    {
        match self.answer {
            Ok(()) => Status::Ok,
            Err(StepError::Fault) => Status::Io,
            Err(StepError::Oom) => Status::NoMemory,
        }
    }
}
