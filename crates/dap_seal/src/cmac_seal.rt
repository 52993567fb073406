//! The seal with provisioned keys.

ghost use Rattle.std.specs.Prelude.{◌≡◌, ◌<◌, length};
ghost use Rattle.dap_seal.specs.Answered.{Opens};
ghost use Rattle.dap_seal.specs.Sealed.{opened_by, sealed_by};
ghost use Rattle.dap_seal.specs.SealLaws.{opened_by-sealed_by};

use crate::cover::covered;
use crate::head::Head;
use crate::seal::{OpenFault, Seal};
use crate::tag::{TAG_LEN, tag_of};
use std::alloc::{AllocError, Global};
use vdaf_api::{Role, SealKeys};

/// The seal with the keys of one of the two aggregators: the plain bytes are covered by the stream of the first key,
/// and a tag by CMAC with the second key (NIST SP 800-38B) stands behind them.
#[derive(Clone, Copy, Debug)]
pub struct CmacSeal {
    /// The aggregator's keys.
    pub keys: SealKeys,
    /// The aggregator.
    pub role: Role,
}

impl CmacSeal {
    /// The seal for an aggregator with its keys. It takes no memory.
    pub fn new(keys: &SealKeys, role: Role) -> CmacSeal
        ensures { result ≡ record { keys = keys.now; role = role } }
    {
        CmacSeal { keys: *keys, role }
    }
}

impl Seal for CmacSeal {
    ghost sealed = { λ s head plain. sealed_by s.keys s.role head plain };

    ghost opened = { λ s head bytes. opened_by s.keys s.role head bytes };

    ghost undone = { λ s head plain. opened_by-sealed_by s.keys s.role head plain };

    fn seal(&self, alloc: Global, head: &Head, plain: &[u8]) -> Result<Vec<u8>, AllocError> {
        let mut sealed = covered(alloc, &self.keys, self.role, &head.id, plain)?;
        let tag = tag_of(alloc, &self.keys, self.role, head, &sealed)?;
        sealed.extend_from_slice(&tag)?;
        Ok(sealed)
    }

    fn open(&self, alloc: Global, head: &Head, bytes: &[u8]) -> Result<Vec<u8>, OpenFault>
        ensures opens { Opens result (opened_by self.now.keys self.now.role head.now bytes.now) }
        // Too few bytes for a tag are refused before memory is asked for.
        ensures short { length bytes.now < TAG_LEN → result ≡ Err OpenFault.Tag }
    {
        if bytes.len() < TAG_LEN {
            return Err(OpenFault::Tag);
        }
        let (ciphertext, given) = bytes.split_at(bytes.len() - TAG_LEN);
        let tag = tag_of(alloc, &self.keys, self.role, head, ciphertext)?;
        if tag.as_slice() != given {
            return Err(OpenFault::Tag);
        }
        Ok(covered(alloc, &self.keys, self.role, &head.id, ciphertext)?)
    }
}
