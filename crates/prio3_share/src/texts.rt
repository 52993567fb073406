//! Info texts, and elements as bytes.
ghost use Rattle.std.specs.Prelude.{◌≡◌, ◌++◌, IfOk, OnOk};
ghost use Rattle.prio3_share.specs.Texts.{bytes_of, info, usage_byte};

use crate::based::Based;
use crate::usage::Usage;
use field_laws::Field;
use std::alloc::{AllocError, Global};

fn usage_number(usage: Usage) -> u8
    ensures { result ≡ usage_byte usage }
{
    match usage {
        Usage::Keys => 0,
        Usage::HelperInput => 1,
        Usage::Part => 2,
        Usage::JointSeed => 3,
        Usage::JointRandomness => 4,
        Usage::WireSeeds => 5,
        Usage::HelperProof => 6,
        Usage::QueryPoint => 7,
    }
}

/// The info text of a use: `dap prio3`, the byte of the kind, the byte of the use, and what the use adds.
pub fn info_text(alloc: Global, kind: u8, usage: Usage, rest: &[u8]) -> Result<Vec<u8>, AllocError>
    ensures { IfOk result (λ v. v.items ≡ info kind usage rest.now) }
{
    let mut text = Vec::new(alloc);
    text.extend_from_slice(b"dap prio3")?;
    text.push(kind)?;
    text.push(usage_number(usage))?;
    text.extend_from_slice(rest)?;
    Ok(text)
}

/// Appends the bytes of the elements, in order.
pub fn push_elements<F: Field>(out: &mut Vec<u8>, xs: &[F]) -> Result<(), AllocError>
    ensures { OnOk result (out.new.items ≡ out.old.items ++ bytes_of ⟦<F as Based>⟧.base xs.now) }
{
    for x in xs {
        x.put(out)?;
    }
    Ok(())
}
