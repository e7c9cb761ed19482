//! Who says how a record ends.
ghost use Rattle.std.specs.Prelude.{◌≡◌};
ghost use Rattle.host_record.specs.Request.{request_of};
ghost use Rattle.session_client.specs.Plain.{IsEndBy};

use crate::plain::PlainList;
use crate::task::Task;
use host_record::Request;

/// Who says how a record ends.
#[derive(Drop)]
pub enum Judge {
    /// The intake, as it took the record.
    Intake,
    /// The plain judge. It isn't asked of a close that waits for pins.
    Plain(PlainList),
}

impl Judge {
    /// The same record, with the end that the judge gives it.
    pub fn ended(&mut self, task: Task) -> Task
        ensures same { (result.envelope ≡ task.envelope) × (result.right ≡ task.right) }
        ensures end { IsEndBy self.old self.new (request_of task.envelope.bytes) task.outcome
            result.outcome }
    {
        match self {
            Judge::Intake => task,
            Judge::Plain(list) => {
                let Task {
                    envelope,
                    right,
                    ..
                } = task;
                let outcome = list.end_of(Request::from_bytes(&envelope.bytes));
                Task {
                    envelope,
                    outcome,
                    right,
                }
            }
        }
    }
}
