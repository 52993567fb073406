//! Why a task file was refused.

ghost use Rattle.std.specs.Prelude.{◌≡◌};

use dap_bytes::Text;
use std::alloc::{AllocError, AllocFailed};
use thiserror::Error;

/// Why a task file was refused. It prints as `task N field F`.
#[derive(Debug, PartialEq, Eq, Drop, Error)]
pub enum TasksFault {
    /// The first task that is refused, counted from 1, and its first field in the order of the checks: `name`, `kind`,
    /// `bits`, `bounds`, `min`, `precision`, `expires`, `verify`, `leader`, `helper`, then the other keys in the order of
    /// their bytes. Task 0 and the field `file` say that the file as a whole isn't of the form.
    #[error("task {task} field {field}")]
    Refused { task: u32, field: Text },
    /// There was no memory to read it.
    #[error("no memory")]
    NoMemory,
}

impl From<AllocError> for TasksFault {
    ghost use Rattle.dap_tasks.specs.declared.fault.TasksFault.TheVariants.{NoMemory};

    ghost from_gives = { λ _ e. e ≡ NoMemory };

    fn from(_: AllocError) -> Self {
        TasksFault::NoMemory
    }
}

impl<T: Drop> From<AllocFailed<T>> for TasksFault {
    ghost use Rattle.dap_tasks.specs.declared.fault.TasksFault.TheVariants.{NoMemory};

    ghost from_gives = { λ _ e. e ≡ NoMemory };

    fn from(_: AllocFailed<T>) -> Self {
        TasksFault::NoMemory
    }
}
