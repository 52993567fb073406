//! The shares of a report.

use dap_bytes::Bytes;

/// The most bytes of a public share, for which a report has room.
pub const MOST_PUBLIC: usize = 32_000;

/// The most bytes of the leader's input share; with the 16 of its seal's tag it fills the room that a report has.
pub const MOST_LEADER: usize = 131_056;

/// The most bytes of the helper's input share, likewise.
pub const MOST_HELPER: usize = 31_984;

/// The most bytes of a prep share and of a prep message.
pub const MOST_STEP: usize = 1024;

/// A sharded measurement: the public share, which both aggregators get, and the input share of each.
#[derive(Debug, PartialEq, Eq, Drop)]
pub struct Shares {
    /// The public share, at most [`MOST_PUBLIC`] bytes.
    pub public: Bytes,
    /// The leader's input share, at most [`MOST_LEADER`] bytes.
    pub leader: Bytes,
    /// The helper's input share, at most [`MOST_HELPER`] bytes.
    pub helper: Bytes,
}
