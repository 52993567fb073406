//! Records as bytes, and a record again from its bytes.
ghost use Rattle.std.specs.Prelude.{◌≡◌, ◌∷◌, [], map, IfOk, IsTrue};
ghost use Rattle.std.specs.List.{list_all};
ghost use Rattle.report_journal.specs.Log.{contents};

use dap_messages::{ReadFault, Spelled, read_all, write_all};
use std::alloc::{AllocError, Global};

/// The bytes of each record.
pub(crate) fn spelled<R: Spelled>(alloc: Global, block: &[R]) -> Result<Vec<Vec<u8>>, AllocError>
    requires { IsTrue (list_all R.grammar.allowed block.now) }
    ensures { IfOk result (λ v. contents v.items ≡ map R.grammar.spell block.now) }
{
    let mut out = Vec::new(alloc);
    for x in block {
        let text = write_all(alloc, x)?;
        out.push(text)?;
    }
    Ok(out)
}

/// The bytes of one record, as a block.
pub(crate) fn spelled_one<R: Spelled>(alloc: Global, x: &R) -> Result<Vec<Vec<u8>>, AllocError>
    requires { IsTrue (R.grammar.allowed x.now) }
    ensures { IfOk result (λ v. contents v.items ≡ R.grammar.spell x.now ∷ []) }
{
    let text = write_all(alloc, x)?;
    let mut out = Vec::new(alloc);
    out.push(text)?;
    Ok(out)
}

/// A copy of a value that has a spelling, made from that.
pub fn copy_of<R: Spelled>(alloc: Global, x: &R) -> Result<R, AllocError>
    requires { IsTrue (R.grammar.allowed x.now) }
    ensures { IfOk result (λ y. y ≡ x.now) }
{
    let text = write_all(alloc, x)?;
    match read_all(alloc, &text) {
        Ok(y) => Ok(y),
        Err(ReadFault::Form { at: _ }) => unreachable!(),
        Err(ReadFault::NoMemory) => Err(AllocError),
    }
}
