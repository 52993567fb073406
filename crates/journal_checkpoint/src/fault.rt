//! Why a pair's calls are refused.
ghost use Rattle.std.specs.Prelude.{◌≡◌};
ghost use Rattle.journal_checkpoint.specs.Faults.{after_change, after_reading};
ghost use Rattle.journal_checkpoint.specs.declared.fault.CheckFault.TheVariants as check;

use dap_disk::StoreFault;
use report_journal::ReadOnlyFault;
use std::alloc::AllocError;

/// Why an opening or a head was refused, with the disks in the order given. They may be opened again once both are up.
#[derive(Drop)]
pub struct PairRefused<D> {
    /// The first disk.
    pub a: D,
    /// The second disk.
    pub b: D,
    /// Why: `Down` where one of them has stopped.
    pub fault: StoreFault,
}

/// Why a checkpoint was refused.
#[derive(Clone, Copy, Debug, PartialEq, Eq)]
pub enum CheckFault {
    /// One of the disks has stopped.
    Down,
    /// The bytes are no journal: at this place, behind whole blocks, a gate is open and no block stands.
    NotAJournal { at: u64 },
    /// There are more blocks than may stay, and no generation comes after this one.
    Last,
    /// There was no memory.
    NoMemory,
}

/// Why a checkpoint was refused, with the disks in the order given. They may be opened again once both are up.
#[derive(Drop)]
pub struct CheckRefused<D> {
    /// The first disk.
    pub a: D,
    /// The second disk.
    pub b: D,
    /// Why.
    pub fault: CheckFault,
}

impl From<AllocError> for CheckFault {
    ghost from_gives = { λ _ fault. fault ≡ check.NoMemory };

    fn from(_: AllocError) -> Self {
        CheckFault::NoMemory
    }
}

impl From<ReadOnlyFault> for CheckFault {
    ghost from_gives = { λ reading fault. fault ≡ after_reading reading };

    fn from(reading: ReadOnlyFault) -> Self {
        match reading {
            ReadOnlyFault::Down => CheckFault::Down,
            ReadOnlyFault::NotAJournal { at } => CheckFault::NotAJournal { at },
            ReadOnlyFault::NoMemory => CheckFault::NoMemory,
        }
    }
}

impl From<StoreFault> for CheckFault {
    ghost from_gives = { λ change fault. fault ≡ after_change change };

    fn from(change: StoreFault) -> Self {
        match change {
            StoreFault::Down => CheckFault::Down,
            StoreFault::NoMemory => CheckFault::NoMemory,
        }
    }
}
