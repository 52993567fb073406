//! At which calls a disk in memory stops, and what a stop leaves.

/// What a stop leaves of the changes since the last sync.
#[derive(Clone, Copy, Debug, PartialEq, Eq)]
pub enum Image {
    /// None of them.
    Old,
    /// All of them.
    New,
    /// The greatest length, and this byte in each place that may be anything.
    Fill(u8),
}

/// A call at which the disk stops, counted from 1 and without restarts, and what the next restart leaves.
#[derive(Clone, Copy, Debug, PartialEq, Eq)]
pub struct Stop {
    /// The call.
    pub call: u64,
    /// What is left.
    pub image: Image,
}
