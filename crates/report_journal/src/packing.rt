//! Blocks that take as many records as they can.
ghost use Rattle.std.specs.Prelude.{◌≡◌, ◌≤◌, ◌<◌, ◌+◌, ◌++◌, length, take, OnOk};
ghost use Rattle.report_journal.specs.Journal.{block, body};
ghost use Rattle.report_journal.specs.Log.{contents};

use crate::block::{body_len, put_records};
use dap_bytes::{LONGEST_BLOCK, put_u8, put_u32};
use std::alloc::AllocError;

/// How many records a block takes, from the first on: all, or so many that one more would be too much. The first one
/// has to fit.
#[tactic(auto, using(crate::proofs::Bodies::body_step))]
pub fn fitting(records: &[Vec<u8>]) -> usize
    requires some { 0 < length records.now }
    requires first { length (body (contents (take 1 records.now))) ≤ LONGEST_BLOCK }
    ensures some { 0 < result }
    ensures within { result ≤ length records.now }
    ensures size { length (body (contents (take result records.now))) ≤ LONGEST_BLOCK }
    ensures full { result < length records.now
        → LONGEST_BLOCK < length (body (contents (take (result + 1) records.now))) }
{
    let mut size = 0;
    let mut n = 0;
    while n < records.len() {
        size += 4 + records[n].len();
        if size > LONGEST_BLOCK {
            return n;
        }
        n += 1;
    }
    n
}

/// Appends the first `n` records as one block behind an open gate.
pub fn put_block(out: &mut Vec<u8>, records: &[Vec<u8>], n: usize) -> Result<(), AllocError>
    requires within { n ≤ length records.now }
    requires size { length (body (contents (take n records.now))) ≤ LONGEST_BLOCK }
    ensures ok { OnOk result (out.new.items ≡ out.old.items ++ block (contents (take n records.now))) }
{
    let part = first_records(records, n);
    put_u8(out, 1)?;
    put_u32(out, body_len(part) as u32)?;
    put_records(out, part)?;
    Ok(())
}

fn first_records(records: &[Vec<u8>], n: usize) -> &[Vec<u8>]
    requires { n ≤ length records.now }
    ensures { result.now ≡ take n records.now }
{
    &records[..n]
}
