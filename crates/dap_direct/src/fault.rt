//! Why a run isn't done.

ghost use Rattle.std.specs.Prelude.{◌≡◌};
ghost use Rattle.dap_direct.specs.declared.fault.RunFault.TheVariants.{NoMemory};

use std::alloc::AllocError;
use thiserror::Error;

/// Why a script isn't run to its end.
#[derive(Debug, Drop, Error)]
pub enum RunFault {
    /// With this line, counted from 1, the limit of this number is passed. The text is that of the segments before it.
    #[error("limit {limit} at line {line}")]
    Limit { line: u32, limit: u8, text: Vec<u8> },
    /// There was no memory.
    #[error("no memory")]
    NoMemory,
}

impl From<AllocError> for RunFault {
    ghost from_gives = { λ _ e. e ≡ NoMemory };

    fn from(_e: AllocError) -> RunFault {
        RunFault::NoMemory
    }
}
