//! What a work comes to.

use crate::work::HelperWork;
use dap_messages::{Items, Step};
use lane_records::Outcome;

/// What a work comes to.
#[derive(Debug, Drop)]
pub enum Made {
    /// For an InitReq the helper's first steps, report by report.
    Steps(Items<Step>),
    /// For a ContReq what the leader's items come to, report by report, before the lane looks for closed buckets and
    /// repeated reports.
    Outcomes(Items<Outcome>),
}

/// A work with what it comes to.
#[derive(Debug, Drop)]
pub struct HelperDone {
    /// The work.
    pub work: HelperWork,
    /// What it comes to.
    pub made: Made,
}
