//! The limits of a run.

/// How many reports a run is offered at most, and how many bytes these reports have at most together. A report is
/// offered by each measurement of a known task that has shares and by each upload of a report of a known task, repeats
/// included.
#[derive(Clone, Copy, Debug, PartialEq, Eq)]
pub struct Limits {
    /// How many reports: limit 2.
    pub reports: u32,
    /// How many bytes: limit 3.
    pub bytes: u64,
}
