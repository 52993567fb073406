//! Tasks: what is measured, in which batches, and with which keys; the file that they are read from; the known tasks with
//! their measurement functions; and why a line or a report is refused. The layers above read a file with `read_tasks`,
//! make a script's tasks with `trial`, keep the known ones in `Tasks`, and judge an offered report as `Judged` says, by
//! `is_early` and `is_expired`.
#![tactic(auto)]

mod cause;
mod fault;
mod fields;
mod file;
mod laws;
mod moment;
mod table;
mod task;
mod tasks;
mod trials;

pub use cause::{Answer, Cause, Judged, MOST_AHEAD};
pub use fault::TasksFault;
pub use file::read_tasks;
pub use laws::{refusals_name_the_first_task, task_files_are_read, the_first_cause_counts};
pub use moment::{is_early, is_expired};
pub use task::Task;
pub use tasks::Tasks;
pub use trials::trial;

#[cfg(test)]
mod file_tests;
#[cfg(test)]
mod tests;
