//! Why a call gives nothing.
ghost use Rattle.std.specs.Prelude.{◌≡◌};
ghost use Rattle.vdaf_api.specs.declared.fault.PrepFault.TheVariants as prep;
ghost use Rattle.vdaf_api.specs.declared.fault.ShardFault.TheVariants as shard;

use std::alloc::AllocError;
use thiserror::Error;

/// Why a measurement has no shares.
#[derive(Clone, Copy, Debug, PartialEq, Eq, Error)]
pub enum ShardFault {
    /// It isn't one of the kind.
    #[error("the value is not of the kind")]
    BadValue,
    /// A drawing from the seed skipped too many values.
    #[error("a drawing is spent")]
    Spent,
    /// There was no memory for the shares.
    #[error("no memory")]
    NoMemory,
}

/// Why a step of preparation has no value.
#[derive(Clone, Copy, Debug, PartialEq, Eq, Error)]
pub enum PrepFault {
    /// The shares or the message aren't those of a report that can be prepared.
    #[error("the report is not valid")]
    Invalid,
    /// There was no memory for the value.
    #[error("no memory")]
    NoMemory,
}

impl From<AllocError> for ShardFault {
    ghost from_gives = { λ _ fault. fault ≡ shard.NoMemory };

    fn from(_: AllocError) -> Self {
        ShardFault::NoMemory
    }
}

impl From<AllocError> for PrepFault {
    ghost from_gives = { λ _ fault. fault ≡ prep.NoMemory };

    fn from(_: AllocError) -> Self {
        PrepFault::NoMemory
    }
}
