//! The bytes of a block, and copies of its records.
ghost use Rattle.std.specs.Prelude.{◌≡◌, ◌≤◌, ◌++◌, List, ℕ, length, IfOk, OnOk, OnErr, Vec};
ghost use Rattle.std.specs.declared.alloc.Global.{Global as TheGlobal};
ghost use Rattle.report_journal.specs.Journal.{body, behind};
ghost use Rattle.report_journal.specs.Log.{contents};

use dap_bytes::{LONGEST_BLOCK, put_u8, put_u32};
use std::alloc::{AllocError, Global};

/// The length of the records behind their lengths.
pub(crate) fn body_len(records: &[Vec<u8>]) -> usize
    requires { length (body (contents records.now)) ≤ LONGEST_BLOCK }
    ensures { result ≡ length (body (contents records.now)) }
{
    let mut size = 0;
    for r in records {
        size += 4 + r.len();
    }
    size
}

/// What an append of these records writes behind the gate.
pub(crate) fn block_bytes(alloc: Global, records: &[Vec<u8>]) -> Result<Vec<u8>, AllocError>
    requires { length (body (contents records.now)) ≤ LONGEST_BLOCK }
    ensures { IfOk result (λ v. v.items ≡ behind (contents records.now)) }
{
    let mut out = Vec::new(alloc);
    put_u32(&mut out, body_len(records) as u32)?;
    put_records(&mut out, records)?;
    put_u8(&mut out, 0)?;
    Ok(out)
}

/// Appends the records behind their lengths.
pub(crate) fn put_records(out: &mut Vec<u8>, records: &[Vec<u8>]) -> Result<(), AllocError>
    requires { length (body (contents records.now)) ≤ LONGEST_BLOCK }
    ensures { OnOk result (out.new.items ≡ out.old.items ++ body (contents records.now)) }
{
    for r in records {
        put_u32(out, r.len() as u32)?;
        out.extend_from_slice(r)?;
    }
    Ok(())
}

/// Copies of these records behind those that are held, all or none.
pub(crate) fn keep_copies(
    alloc: Global,
    held: &mut Vec<Vec<u8>>,
    records: &[Vec<u8>],
) -> Result<(), AllocError>
    ensures ok { OnOk result ((more : List (Vec ℕ TheGlobal))
        × (held.new.items ≡ held.old.items ++ more) × (contents more ≡ contents records.now)) }
    ensures err { OnErr result (held.new.items ≡ held.old.items) }
{
    let n = held.len();
    let outcome = push_copies(alloc, held, records);
    if outcome.is_err() {
        held.truncate(n);
    }
    outcome
}

fn push_copies(
    alloc: Global,
    held: &mut Vec<Vec<u8>>,
    records: &[Vec<u8>],
) -> Result<(), AllocError>
    ensures front { (more : List (Vec ℕ TheGlobal))
        × (held.new.items ≡ held.old.items ++ more) × OnOk result (contents more ≡ contents records.now) }
{
    for r in records {
        held.push(Vec::from_slice(alloc, r)?)?;
    }
    Ok(())
}
