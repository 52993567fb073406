//! What a lane finds for a message.

use dap_messages::{Half, Items};
use dap_tasks::Task;

/// What is found for a message that isn't refused.
#[derive(Clone, Copy)]
pub(crate) struct Found<'a> {
    /// Its task.
    pub task: &'a Task,
    /// For a ContReq, what the helper got of each report of its job.
    pub started: Option<&'a Items<Half>>,
}
