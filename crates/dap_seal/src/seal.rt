//! The calls of a seal.

ghost use Rattle.std.specs.Prelude.{◌≡◌, IfOk, List, Option, Some, ℕ};
ghost use Rattle.dap_seal.specs.declared.head.Head.{Head};
ghost use Rattle.dap_seal.specs.declared.seal.OpenFault.TheVariants.{NoMemory};
ghost use Rattle.dap_seal.specs.Answered.{Opens};

use crate::head::Head;
use std::alloc::{AllocError, Global};
use thiserror::Error;

/// Why sealed bytes don't open.
#[derive(Clone, Copy, Debug, PartialEq, Eq, Drop, Error)]
pub enum OpenFault {
    /// There are too few bytes for a tag, or the tag isn't that of the head and the rest.
    #[error("the tag differs")]
    Tag,
    /// There was no memory for the plain bytes, or for the text of the tag.
    #[error("no memory")]
    NoMemory,
}

impl From<AllocError> for OpenFault {
    ghost from_gives = { λ _ fault. fault ≡ NoMemory };

    fn from(_: AllocError) -> Self {
        OpenFault::NoMemory
    }
}

/// How shares are sealed for one of the two aggregators.
pub trait Seal {
    /// The sealed bytes of plain ones.
    ghost sealed: { Self → Head → List ℕ → List ℕ };

    /// The plain bytes of sealed ones, if they open.
    ghost opened: { Self → Head → List ℕ → Option (List ℕ) };

    /// Seals plain bytes under a head.
    fn seal(&self, alloc: Global, head: &Head, plain: &[u8]) -> Result<Vec<u8>, AllocError>
        ensures { IfOk result (λ v. v.items ≡ sealed self.now head.now plain.now) };

    /// Opens sealed bytes under a head. `Tag` exactly where they don't open.
    fn open(&self, alloc: Global, head: &Head, bytes: &[u8]) -> Result<Vec<u8>, OpenFault>
        ensures { Opens result (opened self.now head.now bytes.now) };

    /// What was sealed under a head opens under the same head.
    ghost undone: { (s : Self) (head : Head) (plain : List ℕ) → opened s head (sealed s head plain) ≡ Some plain };
}
