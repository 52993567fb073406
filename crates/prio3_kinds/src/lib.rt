//! Prio3 with two shares (draft-irtf-cfrg-vdaf-03) for each kind of measurement: counts over the small field, sums,
//! histograms and vectors over the large one. The layer above uses [`Prio3`] through the traits `Vdaf` and `ListVdaf`,
//! and `functions_of_kind`, which is what the calls compute.
#![tactic(auto)]

mod laws;
mod measuring;
mod prio3;

pub use laws::{
    accepted_reports_are_decided, answers_are_their_vectors, answers_are_whole_numbers,
    honest_reports_count_themselves, measurements_are_of_their_kind,
    measurements_have_their_vectors,
};
pub use prio3::Prio3;

#[cfg(test)]
mod tests;
