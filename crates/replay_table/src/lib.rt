//! Which reports a helper's lane has finished, each with the job in which it did. The lane above looks every report
//! of a job up here before it finishes the report, so that no report is finished twice. It enters the reports of a
//! record before the record is written, while memory may still run out, and takes them out where it wasn't written.
#![tactic(auto)]

mod laws;
mod table;

pub use laws::a_report_taken_out_leaves_no_trace;
pub use table::{PutFault, ReplayTable};

#[cfg(test)]
mod tests;
