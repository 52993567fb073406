//! Why bytes couldn't be read.

ghost use Rattle.std.specs.Prelude.{◌≡◌};
ghost use Rattle.dap_messages.specs.declared.fault.ReadFault.TheVariants as faults;

use std::alloc::{AllocError, AllocFailed};
use thiserror::Error;

/// Bytes are not of the form that is read. `at` is the place of the first fault: the input's length where a field's
/// bytes run out, the first byte of a field whose value isn't allowed, or the first byte that is left over behind the
/// last field.
#[derive(Clone, Copy, Debug, PartialEq, Eq, Error)]
#[error("not of the form at byte {at}")]
pub struct Form {
    /// The place, counted in bytes from 0.
    pub at: usize,
}

/// Why nothing was read.
#[derive(Clone, Copy, Debug, PartialEq, Eq, Error)]
pub enum ReadFault {
    /// The bytes are not of the form, as `Form` says it.
    #[error("not of the form at byte {at}")]
    Form { at: usize },
    /// There was no memory for the value.
    #[error("no memory")]
    NoMemory,
}

impl From<Form> for ReadFault {
    ghost from_gives = { λ form e. e ≡ faults.Form form.at };

    fn from(form: Form) -> ReadFault {
        ReadFault::Form { at: form.at }
    }
}

impl From<AllocError> for ReadFault {
    ghost from_gives = { λ _ e. e ≡ faults.NoMemory };

    fn from(_e: AllocError) -> ReadFault {
        ReadFault::NoMemory
    }
}

impl<T: Drop> From<AllocFailed<T>> for ReadFault {
    ghost from_gives = { λ _ e. e ≡ faults.NoMemory };

    fn from(_e: AllocFailed<T>) -> ReadFault {
        ReadFault::NoMemory
    }
}
