//! The records that a file stands for.
ghost use Rattle.std.specs.Prelude.{◌≡◌, ◌≢◌, ◌⊎◌, ◌≤◌, ◌<◌, ◌+◌, ◌^◌, ◌++◌, [], List, ℕ, true, false, length, drop, take, slice_index, IfOk, OnOk, IfErr, IfSome, MatchOption, None, Err, Vec};
ghost use Rattle.report_journal.specs.Journal.{framed, body, block, Closed, NoJournal, IsBlock};
ghost use Rattle.report_journal.specs.Log.{contents};
ghost use Rattle.report_journal.specs.Reading.{Behind, ClosedIn};

use crate::LogFault;
use dap_bytes::LONGEST_BLOCK;
use std::alloc::{AllocError, Global};

/// The size of the record that stands in front, or none where no record does.
fn next_record(rest: &[u8]) -> Option<usize>
    ensures some { IfSome result (λ n. (4 + n ≤ length rest.now)
        × (framed (take n (drop 4 rest.now)) ++ drop (4 + n) rest.now ≡ rest.now)) }
    ensures none { result ≡ None → 0 < length rest.now
        → (k : List (List ℕ)) → length (body k) < 2 ^ 32 → rest.now ≡ body k → ⊥ }
{
    if rest.len() < 4 {
        return None;
    }
    let size = u32::from_be_bytes([rest[0], rest[1], rest[2], rest[3]]) as usize;
    if size > rest.len() - 4 {
        return None;
    }
    Some(size)
}

/// Adds the records of a part, and says whether the part is one or more of them and nothing else.
fn split_records(alloc: Global, part: &[u8], records: &mut Vec<Vec<u8>>) -> Result<bool, AllocError>
    requires { length part.now ≤ LONGEST_BLOCK }
    ensures whole { IfOk result (λ is. is ≡ true → (k : List (List ℕ))
        × (0 < length k) × (part.now ≡ body k) × (contents records.new.items ≡ contents records.old.items ++ k)) }
    ensures none { IfOk result (λ is. is ≡ false → (k : List (List ℕ)) → 0 < length k → part.now ≡ body k → ⊥) }
{
    if part.len() == 0 {
        return Ok(false);
    }
    let mut rest = part;
    while rest.len() > 0 {
        let Some(size) = next_record(rest) else {
            return Ok(false);
        };
        records.push(Vec::from_slice(alloc, &rest[4..4 + size])?)?;
        rest = &rest[4 + size..];
    }
    Ok(true)
}

/// Adds the records of the block that stands in front behind an open gate, and gives its size, or none where no block stands.
fn next_block(
    alloc: Global,
    rest: &[u8],
    records: &mut Vec<Vec<u8>>,
) -> Result<Option<usize>, AllocError>
    requires some { 0 < length rest.now }
    requires gate { slice_index rest.now 0 ≡ 1 }
    ensures some { IfOk result (λ found. IfSome found (λ n. (n < length rest.now)
        × ((k : List (List ℕ)) × IsBlock k × (take n rest.now ≡ block k) × (contents records.new.items ≡ contents records.old.items ++ k)))) }
    ensures none { IfOk result (λ found. found ≡ None
        → (k : List (List ℕ)) (more : List ℕ) → IsBlock k → rest.now ≡ block k ++ more → more ≡ []) }
{
    if rest.len() < 5 {
        return Ok(None);
    }
    let size = u32::from_be_bytes([rest[1], rest[2], rest[3], rest[4]]) as usize;
    if size > LONGEST_BLOCK {
        return Ok(None);
    }
    if size >= rest.len() - 5 {
        return Ok(None);
    }
    let part = &rest[5..5 + size];
    let whole = split_records(alloc, part, records)?;
    if whole {
        return Ok(Some(5 + size));
    }
    Ok(None)
}

fn rest_of(file: &[u8], at: usize) -> &[u8]
    requires { at ≤ length file.now }
    ensures { result.now ≡ drop at file.now }
{
    &file[at..]
}

/// The records of a file, the place of the gate behind them, and how many blocks they stand in.
pub(crate) fn parse_blocks(
    alloc: Global,
    file: &[u8],
) -> Result<(Vec<Vec<u8>>, usize, usize), LogFault>
    requires some { 0 < length file.now }
    requires used { length file.now ≤ 1 → slice_index file.now 0 ≢ 1 }
    ensures ok { IfOk result (λ r. ClosedIn (contents r.0.items) r.1 r.2 file.now) }
    ensures none { (at : ℕ) → result ≡ Err (LogFault.NotAJournal at) → NoJournal at file.now }
    ensures up { result ≡ Err LogFault.Down → ⊥ }
{
    let mut records = Vec::new(alloc);
    let mut at = 0;
    let mut blocks = 0;
    while file[at] == 1 {
        match next_block(alloc, rest_of(file, at), &mut records)? {
            Some(n) => at += n,
            None => return Err(LogFault::NotAJournal { at: at as u64 }),
        }
        blocks += 1;
    }
    Ok((records, at, blocks))
}

/// The records of a file, and the place of the gate behind them.
pub(crate) fn parse(alloc: Global, file: &[u8]) -> Result<(Vec<Vec<u8>>, usize), LogFault>
    requires some { 0 < length file.now }
    requires used { length file.now ≤ 1 → slice_index file.now 0 ≢ 1 }
    ensures ok { IfOk result (λ r. Closed (contents r.0.items) r.1 file.now) }
    ensures none { (at : ℕ) → result ≡ Err (LogFault.NotAJournal at) → NoJournal at file.now }
    ensures up { result ≡ Err LogFault.Down → ⊥ }
{
    match parse_blocks(alloc, file) {
        Ok((records, at, _)) => Ok((records, at)),
        Err(fault) => Err(fault),
    }
}
