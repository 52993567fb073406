//! Why a journal's calls are refused.
ghost use Rattle.std.specs.Prelude.{◌≡◌};
ghost use Rattle.report_journal.specs.Faults.{after_change};
ghost use Rattle.report_journal.specs.declared.fault.AppendFault.TheVariants as append;
ghost use Rattle.report_journal.specs.declared.fault.LogFault.TheVariants as log;
ghost use Rattle.report_journal.specs.declared.fault.RestartFault.TheVariants as restart;

use dap_disk::{Dead, Down, StoreFault};
use std::alloc::AllocError;

/// Why an append was refused.
#[derive(Clone, Copy, Debug, PartialEq, Eq)]
pub enum AppendFault {
    /// The disk stopped. All of the block or none of it is there; a restart finds out.
    Down,
    /// There was no memory. The records are as before, in every image too.
    NoMemory,
}

/// Why a restart was refused.
#[derive(Clone, Copy, Debug, PartialEq, Eq)]
pub enum RestartFault {
    /// The disk doesn't come back.
    Dead,
    /// The disk stopped again.
    Down,
}

/// Why an opening was refused.
#[derive(Clone, Copy, Debug, PartialEq, Eq)]
pub enum LogFault {
    /// The disk stopped.
    Down,
    /// The bytes are no journal: at this place, behind whole blocks, a gate is open and no block stands.
    NotAJournal { at: u64 },
    /// There was no memory. The disk's bytes give the same records as before.
    NoMemory,
}

impl From<AllocError> for AppendFault {
    ghost from_gives = { λ _ fault. fault ≡ append.NoMemory };

    fn from(_: AllocError) -> Self {
        AppendFault::NoMemory
    }
}

impl From<Dead> for RestartFault {
    ghost from_gives = { λ _ fault. fault ≡ restart.Dead };

    fn from(_: Dead) -> Self {
        RestartFault::Dead
    }
}

impl From<Down> for RestartFault {
    ghost from_gives = { λ _ fault. fault ≡ restart.Down };

    fn from(_: Down) -> Self {
        RestartFault::Down
    }
}

impl From<AllocError> for LogFault {
    ghost from_gives = { λ _ fault. fault ≡ log.NoMemory };

    fn from(_: AllocError) -> Self {
        LogFault::NoMemory
    }
}

impl From<Down> for LogFault {
    ghost from_gives = { λ _ fault. fault ≡ log.Down };

    fn from(_: Down) -> Self {
        LogFault::Down
    }
}

impl From<StoreFault> for LogFault {
    ghost from_gives = { λ change fault. fault ≡ after_change change };

    fn from(change: StoreFault) -> Self {
        match change {
            StoreFault::Down => LogFault::Down,
            StoreFault::NoMemory => LogFault::NoMemory,
        }
    }
}
