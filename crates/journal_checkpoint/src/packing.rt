//! Packing a journal onto the disk that isn't live.
ghost use Rattle.std.specs.Prelude.{◌≡◌, ◌⊎◌, ◌<◌, ◌≤◌, ◌+◌, ◌-◌, ◌^◌, ◌++◌, ◌∷◌, [], List, ℕ, length, take, drop, IfOk, Err, IsTrue, false};
ghost use Rattle.std.specs.Int.{to_be_bytes, w64};
ghost use Rattle.dap_disk.specs.Disk.{Tells, NoMore, LeavesOnly, Only};
ghost use Rattle.report_journal.specs.Journal.{NoJournal, blocks, body};
ghost use Rattle.report_journal.specs.Log.{contents};
ghost use Rattle.journal_checkpoint.specs.Packing.{HasFew, HasMore, Packs};
ghost use Rattle.journal_checkpoint.specs.Pair.{CountsPair};
ghost use Rattle.journal_checkpoint.specs.Steps.{PacksOnto, KeepsOrPacks};

use crate::CheckFault;
use crate::making::make_live;
use dap_bytes::{LONGEST_BLOCK, put_u8, put_u64};
use dap_disk::Disk;
use report_journal::{fitting, put_block, read_blocks};
use std::alloc::{AllocError, Global};

/// The records from a place on.
fn records_from(records: &[Vec<u8>], at: usize) -> &[Vec<u8>]
    requires { at ≤ length records.now }
    ensures { result.now ≡ drop at records.now }
{
    &records[at..]
}

/// Whether the first record fits into a block by itself.
fn first_fits(records: &[Vec<u8>]) -> bool
    requires { 0 < length records.now }
    ensures { IsTrue result → length (body (contents (take 1 records.now))) ≤ LONGEST_BLOCK }
{
    records[0].len() <= LONGEST_BLOCK - 4
}

/// What stands behind the byte 2 of the packed journal: a generation, blocks that take as many of the records as fit,
/// and a shut gate. Each record is copied once.
fn packed_bytes(alloc: Global, records: &[Vec<u8>], generation: u64) -> Result<Vec<u8>, AllocError>
    ensures { IfOk result (λ v. (parts : List (List (List ℕ))) × Packs (contents records.now) parts
        × (v.items ≡ to_be_bytes w64 generation ++ (blocks parts ++ 0 ∷ []))) }
{
    let mut out = Vec::new(alloc);
    put_u64(&mut out, generation)?;
    let mut at = 0;
    while at < records.len() {
        let rest = records_from(records, at);
        // The records of blocks fit; those of a disk that tells nothing aren't known to stand in blocks.
        if !first_fits(rest) {
            return Err(AllocError);
        }
        let n = fitting(rest);
        put_block(&mut out, rest, n)?;
        at += n;
    }
    put_u8(&mut out, 0)?;
    Ok(out)
}

/// Packs the journal of the live disk from a place on onto the other disk, where it has more than so many blocks, and
/// says whether it did.
pub(crate) fn pack_onto<D: Disk>(
    alloc: Global,
    live: &mut D,
    other: &mut D,
    start: u64,
    generation: u64,
    over: u32,
) -> Result<bool, CheckFault>
    requires live_up { IsTrue (D.up live.old) }
    requires other_up { IsTrue (D.up other.old) }
    requires synced { Only (D.holds other.old) (D.may_leave other.old) }
    ensures few { IfOk result (λ packed. packed ≡ false →
        Tells (D.holds live.old) (λ c. HasFew over (drop start c)) × (other.new ≡ other.old)) }
    ensures packed { IfOk result (λ packed. IsTrue packed →
        PacksOnto over generation start (D.holds live.old) (D.holds other.old) (D.holds other.new)) }
    ensures durable { IfOk result (λ packed. IsTrue packed → Only (D.holds other.new) (D.may_leave other.new)) }
    ensures none { (at : ℕ) → result ≡ Err (CheckFault.NotAJournal at) →
        Tells (D.holds live.old) (λ c. NoJournal at (drop start c)) × (other.new ≡ other.old) }
    ensures last { result ≡ Err CheckFault.Last →
        Tells (D.holds live.old) (λ c. HasMore over (drop start c)) × (generation ≡ 2 ^ 64 - 1) × (other.new ≡ other.old) }
    ensures same { D.holds live.new ≡ D.holds live.old }
    ensures images { NoMore (D.may_leave live.old) (D.may_leave live.new) }
    ensures live_moments { LeavesOnly D.moment D.left_since live.old live.new (D.may_leave live.old) }
    ensures other_moments { LeavesOnly D.moment D.left_since other.old other.new
        (KeepsOrPacks generation start (D.holds live.old) (D.may_leave other.old)) }
    ensures up { (result ≡ Err CheckFault.Down) ⊎ (IsTrue (D.up live.new) × IsTrue (D.up other.new)) }
    ensures counts { CountsPair D.downs D.deads (result ≡ Err CheckFault.Down)
        (live.old, other.old) (live.new, other.new) }
{
    let read = read_blocks(alloc, live, start)?;
    if read.count <= over as usize {
        return Ok(false);
    }
    if generation == u64::MAX {
        return Err(CheckFault::Last);
    }
    let bytes = packed_bytes(alloc, &read.records, generation + 1)?;
    make_live(other, &bytes)?;
    Ok(true)
}
