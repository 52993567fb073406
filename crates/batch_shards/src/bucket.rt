//! What is kept of one batch.

ghost use Rattle.std.specs.Prelude.{◌≡◌};
ghost use Rattle.batch_shards.specs.declared.bucket.BucketFault.TheVariants.{NoMemory};

use dap_batch::Checksum;
use dap_bytes::Bytes;
use std::alloc::AllocError;
use thiserror::Error;

/// Why a report wasn't counted.
#[derive(Clone, Copy, Debug, PartialEq, Eq, Drop, Error)]
pub enum BucketFault {
    /// The batch is closed.
    #[error("the batch is closed")]
    Closed,
    /// There was no memory for it.
    #[error("no memory")]
    NoMemory,
}

impl From<AllocError> for BucketFault {
    ghost from_gives = { λ _ fault. fault ≡ NoMemory };

    fn from(_: AllocError) -> Self {
        BucketFault::NoMemory
    }
}

/// What is kept of one batch. Its numbers stand still at their type's end.
#[derive(Debug, Drop)]
pub struct Bucket {
    /// How many reports were added.
    pub reports: u64,
    /// How many were rejected.
    pub rejected: u64,
    /// The checksum of the added ones' identifiers.
    pub checksum: Checksum,
    /// The sum of the reports' out shares. Before the first it is none, or noughts where room was made for it.
    pub sum: Option<Bytes>,
    /// Whether nothing is taken any more.
    pub closed: bool,
}
