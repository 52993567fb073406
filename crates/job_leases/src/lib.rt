//! The open jobs of a leader's lane: at which stage each one stands, and which worker has taken it up until when.
//! The lane above adds its jobs here in the order in which it makes them, leases the oldest one that waits for a
//! worker, and moves a job on only from the stage at which it takes it to stand.
#![tactic(auto)]

mod job;
mod laws;
mod leases;

pub use job::{Lease, OpenJob, Stage};
pub use laws::a_leased_job_is_not_given_again;
pub use leases::{Leases, Stale};

#[cfg(test)]
mod tests;
