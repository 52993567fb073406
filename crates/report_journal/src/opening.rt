//! Reading a disk whole, and making it a journal.
ghost use Rattle.std.specs.Prelude.{◌≡◌, ◌≢◌, ◌⊎◌, ◌≤◌, ◌<◌, ◌+◌, [], ◌∷◌, List, ℕ, length, take, slice_index, IfOk, OnOk, OnErr, IsErr, IsErrOf, IsTrue, Err, true, false};
ghost use Rattle.dap_disk.specs.Disk.{Tells, NoMore, LeavesOnly, Only, CountsStop, of_told};
ghost use Rattle.report_journal.specs.Journal.{Closed, NoJournal, Stands};
ghost use Rattle.report_journal.specs.Log.{contents};
ghost use Rattle.report_journal.specs.Reading.{IsAsBefore, SameRecords, TellsNone, is_fresh, opened};

use crate::LogFault;
use crate::grammar::parse;
use dap_disk::{Disk, Down, StoreFault, cut_synced, write_synced};
use std::alloc::Global;

/// Fills a buffer from a place on, as far as the disk goes, and says how far.
pub fn read_into<D: Disk>(disk: &mut D, buf: &mut [u8]) -> Result<usize, Down>
    requires { IsTrue (D.up disk.old) }
    ensures within { IfOk result (λ n. n ≤ length buf.old) }
    ensures told { IfOk result (λ n. Tells (D.holds disk.old)
        (λ c. (take n buf.new ≡ take n c) × (n ≤ length c) × (length buf.old ≤ length c → n ≡ length buf.old))) }
    ensures same { D.holds disk.new ≡ D.holds disk.old }
    ensures images { NoMore (D.may_leave disk.old) (D.may_leave disk.new) }
    ensures any_moment { LeavesOnly D.moment D.left_since disk.old disk.new (D.may_leave disk.old) }
    ensures up { OnOk result (IsTrue (D.up disk.new)) }
    ensures counts { CountsStop D.downs D.deads (IsErr result) disk.old disk.new }
    ensures down { OnErr result (D.up disk.new ≡ false) }
{
    let mut at = 0;
    while at < buf.len() {
        let end = buf.len();
        let n = disk.read(at as u64, &mut buf[at..end])?;
        if n == 0 {
            return Ok(at);
        }
        at += n;
    }
    Ok(at)
}

/// All that the disk holds.
pub(crate) fn read_all<D: Disk>(alloc: Global, disk: &mut D) -> Result<Vec<u8>, LogFault>
    requires { IsTrue (D.up disk.old) }
    ensures told { IfOk result (λ v. Tells (D.holds disk.old) (λ c. v.items ≡ c)) }
    ensures same { D.holds disk.new ≡ D.holds disk.old }
    ensures images { NoMore (D.may_leave disk.old) (D.may_leave disk.new) }
    ensures any_moment { LeavesOnly D.moment D.left_since disk.old disk.new (D.may_leave disk.old) }
    ensures up { OnOk result (IsTrue (D.up disk.new)) }
    ensures memory { result ≡ Err LogFault.NoMemory → IsTrue (D.up disk.new) }
    ensures counts { CountsStop D.downs D.deads (result ≡ Err LogFault.Down) disk.old disk.new }
    ensures read { (at : ℕ) → result ≡ Err (LogFault.NotAJournal at) → ⊥ }
    ensures down { result ≡ Err LogFault.Down → D.up disk.new ≡ false }
{
    let size = disk.len()?;
    let mut file = Vec::new(alloc);
    file.resize(size as usize, 0u8)?;
    if size == 0 {
        return Ok(file);
    }
    let n = read_into(disk, &mut file)?;
    file.truncate(n);
    Ok(file)
}

/// Cuts a file of one byte to nothing, so that its gate can't count with what is written next.
#[tactic(auto, using(crate::proofs::Fresh::cleared))]
fn clear<D: Disk>(disk: &mut D, size: usize) -> Result<(), StoreFault>
    requires up { IsTrue (D.up disk.old) }
    requires small { size ≤ 1 }
    requires held { Tells (D.holds disk.old) (λ c. length c ≡ size) }
    requires synced { Only (D.holds disk.old) (D.may_leave disk.old) }
    requires images { (c : List ℕ) → D.may_leave disk.old c → length c ≤ 1 }
    ensures file { OnOk result (D.holds disk.new ≡ of_told (λ _. []) (D.holds disk.old)) }
    ensures durable { OnOk result (Only (D.holds disk.new) (D.may_leave disk.new)) }
    ensures up { OnOk result (IsTrue (D.up disk.new)) }
    ensures images { (c : List ℕ) → D.may_leave disk.new c → length c ≤ 1 }
    ensures any_moment { LeavesOnly D.moment D.left_since disk.old disk.new (λ c. length c ≤ 1) }
    ensures memory { IsErrOf result StoreFault.NoMemory
        → (D.holds disk.new ≡ D.holds disk.old) × IsTrue (D.up disk.new) }
    ensures counts { CountsStop D.downs D.deads (IsErrOf result StoreFault.Down) disk.old disk.new }
    ensures down { IsErrOf result StoreFault.Down → D.up disk.new ≡ false }
{
    if size == 0 {
        return Ok(());
    }
    cut_synced(disk, 0)
}

/// Makes an empty file, or one open gate alone, a journal without records.
#[tactic(auto, using(crate::proofs::Fresh::first_gate))]
fn make<D: Disk>(disk: &mut D, size: usize) -> Result<(), StoreFault>
    requires up { IsTrue (D.up disk.old) }
    requires small { size ≤ 1 }
    requires held { Tells (D.holds disk.old) (λ c. length c ≡ size) }
    requires synced { Only (D.holds disk.old) (D.may_leave disk.old) }
    requires images { (c : List ℕ) → D.may_leave disk.old c → length c ≤ 1 }
    ensures held { OnOk result (Tells (D.holds disk.new) (Closed [] 0)) }
    ensures file { OnOk result (D.holds disk.new ≡ of_told (λ _. 0 ∷ []) (D.holds disk.old)) }
    ensures images { OnOk result ((c : List ℕ) → D.may_leave disk.new c → Closed [] 0 c) }
    ensures up { OnOk result (IsTrue (D.up disk.new)) }
    ensures any_moment { LeavesOnly D.moment D.left_since disk.old disk.new (λ c. length c ≤ 1) }
    ensures memory { IsErrOf result StoreFault.NoMemory
        → IsTrue (D.up disk.new) × Tells (D.holds disk.new) (λ c. length c ≤ 1) }
    ensures counts { CountsStop D.downs D.deads (IsErrOf result StoreFault.Down) disk.old disk.new }
    ensures down { IsErrOf result StoreFault.Down → D.up disk.new ≡ false }
{
    clear(disk, size)?;
    write_synced(disk, 0, &[0])?;
    Ok(())
}

/// Whether a file is empty or the byte 1, and so stands for no records as it is.
pub(crate) fn is_fresh(file: &[u8]) -> bool
    ensures is { result ≡ is_fresh file.now }
    ensures fresh { result ≡ true → length file.now ≤ 1 }
    ensures used { result ≡ false → (0 < length file.now) × (length file.now ≤ 1 → slice_index file.now 0 ≢ 1) }
{
    match file {
        [] | [1] => true,
        _ => false,
    }
}

/// Reads the records and the place of the gate behind them, and makes a fresh disk a journal.
pub(crate) fn start<D: Disk>(alloc: Global, disk: &mut D) -> Result<(Vec<Vec<u8>>, usize), LogFault>
    requires { IsTrue (D.up disk.old) }
    ensures held { IfOk result (λ r. Tells (D.holds disk.new) (Closed (contents r.0.items) r.1)) }
    ensures images { IfOk result (λ r. (c : List ℕ) → D.may_leave disk.new c → Closed (contents r.0.items) r.1 c) }
    ensures records { IfOk result (λ r. Tells (D.holds disk.old) (Stands (contents r.0.items))) }
    ensures file { IfOk result (λ _. D.holds disk.new ≡ of_told opened (D.holds disk.old)) }
    ensures up { OnOk result (IsTrue (D.up disk.new)) }
    ensures any_moment { LeavesOnly D.moment D.left_since disk.old disk.new
        (IsAsBefore (D.may_leave disk.old) (D.holds disk.old)) }
    ensures none { (at : ℕ) → result ≡ Err (LogFault.NotAJournal at)
        → TellsNone at (D.holds disk.old) × (D.holds disk.new ≡ D.holds disk.old) × IsTrue (D.up disk.new) }
    ensures memory { result ≡ Err LogFault.NoMemory
        → IsTrue (D.up disk.new) × Tells (D.holds disk.new) (SameRecords (D.holds disk.old)) }
    ensures counts { CountsStop D.downs D.deads (result ≡ Err LogFault.Down) disk.old disk.new }
    ensures down { result ≡ Err LogFault.Down → D.up disk.new ≡ false }
{
    disk.sync()?;
    let file = read_all(alloc, disk)?;
    if is_fresh(&file) {
        make(disk, file.len())?;
        return Ok((Vec::new(alloc), 0));
    }
    parse(alloc, &file)
}
