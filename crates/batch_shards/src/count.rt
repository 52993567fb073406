//! The numbers of a batch.

use dap_batch::Checksum;

/// What is told of a batch: how many reports it has, how many rejected ones, the checksum of its reports'
/// identifiers, and whether it is closed.
#[derive(Clone, Copy, Debug, PartialEq, Eq)]
pub struct Count {
    /// How many reports were added.
    pub reports: u32,
    /// How many were rejected.
    pub rejected: u32,
    /// The checksum of the added ones' identifiers.
    pub checksum: [u8; Checksum::LEN],
    /// Whether nothing is taken any more.
    pub closed: bool,
}
