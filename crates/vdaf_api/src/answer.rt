//! What a collection gives.

use crate::numbers::Numbers;

/// The answer of a sum of measurements: how many are 1, their sum, how many fell into each bucket, or the sum at each
/// place of a list.
#[derive(Debug, PartialEq, Eq, Drop)]
pub enum Answer {
    /// How many measurements are 1.
    Count(u64),
    /// The sum of the measurements.
    Sum(u128),
    /// How many measurements fell into each bucket, in order.
    Histogram(Numbers),
    /// The sums of the measurements' numbers, place by place.
    Vector(Numbers),
}

/// A collected batch: how many reports it counts, how many were rejected, and their answer.
#[derive(Debug, PartialEq, Eq, Drop)]
pub struct Collected {
    /// The reports with the verdict ok.
    pub reports: u32,
    /// The accepted reports with a failed verdict.
    pub rejected: u32,
    /// The answer of the sum of the reports' contents.
    pub answer: Answer,
}
