//! What a lane hands out to be worked out.

ghost use Rattle.helper_lane.specs.Input.{IsInput};

use dap_bytes::Bytes;
use dap_messages::{Half, Items};
use dap_tasks::Task;

/// A request that a lane took, with all that is needed to work it out beside the lane.
#[derive(Debug, Drop)]
pub struct HelperWork {
    task: Task,
    message: Bytes,
    started: Option<Items<Half>>,
    ghost input: { IsInput task message started },
}

impl HelperWork {
    ghost use Rattle.std.specs.Prelude.{◌≡◌};
    ghost use Rattle.std.specs.Option.{option_map};
    ghost use Rattle.helper_lane.specs.Work.{input_of};

    /// The work of a message under its task.
    pub(crate) fn new(task: Task, message: Bytes, started: Option<Items<Half>>) -> HelperWork
        requires { IsInput task message started }
        ensures { input_of result ≡ record { task = task; message = message; started = started } }
    {
        HelperWork {
            task,
            message,
            started,
        }
    }

    /// The request's task.
    pub fn task(&self) -> &Task
        ensures { result.now ≡ self.now.task }
    {
        &self.task
    }

    /// The request's bytes, all of them.
    pub fn message(&self) -> &[u8]
        ensures { result.now ≡ self.now.message }
    {
        self.message.as_slice()
    }

    /// For a ContReq, what the job's Start has of each report; none for an InitReq.
    pub fn started(&self) -> Option<&Items<Half>>
        ensures { option_map (λ halves. halves.now) result ≡ self.now.started }
    {
        self.started.as_ref()
    }
}
