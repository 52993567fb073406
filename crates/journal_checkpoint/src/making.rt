//! Making a disk the live one: it loses what it has, gets a journal behind a shut gate, and then its head.
ghost use Rattle.std.specs.Prelude.{◌≡◌, ◌≢◌, ◌⊎◌, ◌≤◌, ◌<◌, ◌↔◌, ◌∷◌, [], List, ℕ, length, take, slice_index, OnOk, IsErrOf, IsTrue, false};
ghost use Rattle.dap_disk.specs.Disk.{Tells, LeavesOnly, Only, CountsStop, of_told};
ghost use Rattle.journal_checkpoint.specs.Heads.{generation_of};
ghost use Rattle.journal_checkpoint.specs.Packing.{KeepsGeneration, KeepsGenerationOr};

use crate::head::HEAD;
use dap_disk::{Disk, StoreFault, cut_synced, write_synced};
use report_journal::read_into;

/// Makes a file with the byte 2 in front the single byte 0. That byte goes before the rest, so that at no moment
/// another generation stands there.
fn behead<D: Disk>(disk: &mut D) -> Result<(), StoreFault>
    requires up { IsTrue (D.up disk.old) }
    requires synced { Only (D.holds disk.old) (D.may_leave disk.old) }
    requires long { Tells (D.holds disk.old) (λ c. (HEAD ≤ length c) × (slice_index c 0 ≡ 2)) }
    ensures done { OnOk result (D.holds disk.new ≡ of_told (λ _. 0 ∷ []) (D.holds disk.old)) }
    ensures durable { OnOk result (Only (D.holds disk.new) (D.may_leave disk.new)) }
    ensures any_moment { LeavesOnly D.moment D.left_since disk.old disk.new (KeepsGeneration (D.may_leave disk.old)) }
    ensures up { OnOk result (IsTrue (D.up disk.new)) }
    ensures memory { IsErrOf result StoreFault.NoMemory → IsTrue (D.up disk.new) }
    ensures counts { CountsStop D.downs D.deads (IsErrOf result StoreFault.Down) disk.old disk.new }
    ensures down { IsErrOf result StoreFault.Down → D.up disk.new ≡ false }
{
    write_synced(disk, 0, &[0])?;
    cut_synced(disk, 1)
}

/// Cuts a file without a head to one byte at most.
fn shorten<D: Disk>(disk: &mut D, size: u64) -> Result<(), StoreFault>
    requires up { IsTrue (D.up disk.old) }
    requires synced { Only (D.holds disk.old) (D.may_leave disk.old) }
    requires size { Tells (D.holds disk.old) (λ c. length c ≡ size) }
    requires headless { Tells (D.holds disk.old) (λ c. (length c < HEAD) ⊎ (slice_index c 0 ≢ 2)) }
    ensures done { OnOk result (D.holds disk.new ≡ of_told (take 1) (D.holds disk.old)) }
    ensures durable { OnOk result (Only (D.holds disk.new) (D.may_leave disk.new)) }
    ensures any_moment { LeavesOnly D.moment D.left_since disk.old disk.new (λ c. generation_of c ≡ 0) }
    ensures up { OnOk result (IsTrue (D.up disk.new)) }
    ensures memory { IsErrOf result StoreFault.NoMemory → IsTrue (D.up disk.new) }
    ensures counts { CountsStop D.downs D.deads (IsErrOf result StoreFault.Down) disk.old disk.new }
    ensures down { IsErrOf result StoreFault.Down → D.up disk.new ≡ false }
{
    if size <= 1 {
        return Ok(());
    }
    cut_synced(disk, 1)
}

/// Makes a file of one byte at most the byte 0, which it may be already.
fn shut_gate<D: Disk>(disk: &mut D, is_shut: bool) -> Result<(), StoreFault>
    requires up { IsTrue (D.up disk.old) }
    requires synced { Only (D.holds disk.old) (D.may_leave disk.old) }
    requires short { Tells (D.holds disk.old) (λ c. length c ≤ 1) }
    requires shut { Tells (D.holds disk.old) (λ c. IsTrue is_shut → c ≡ 0 ∷ []) }
    ensures done { OnOk result (D.holds disk.new ≡ of_told (λ _. 0 ∷ []) (D.holds disk.old)) }
    ensures durable { OnOk result (Only (D.holds disk.new) (D.may_leave disk.new)) }
    ensures any_moment { LeavesOnly D.moment D.left_since disk.old disk.new (λ c. generation_of c ≡ 0) }
    ensures up { OnOk result (IsTrue (D.up disk.new)) }
    ensures memory { IsErrOf result StoreFault.NoMemory → IsTrue (D.up disk.new) }
    ensures counts { CountsStop D.downs D.deads (IsErrOf result StoreFault.Down) disk.old disk.new }
    ensures down { IsErrOf result StoreFault.Down → D.up disk.new ≡ false }
{
    if is_shut {
        return Ok(());
    }
    write_synced(disk, 0, &[0])
}

/// Makes a file without a head the single byte 0.
fn clear<D: Disk>(disk: &mut D, size: u64, is_shut: bool) -> Result<(), StoreFault>
    requires up { IsTrue (D.up disk.old) }
    requires synced { Only (D.holds disk.old) (D.may_leave disk.old) }
    requires size { Tells (D.holds disk.old) (λ c. length c ≡ size) }
    requires headless { Tells (D.holds disk.old) (λ c. (length c < HEAD) ⊎ (slice_index c 0 ≢ 2)) }
    requires shut { Tells (D.holds disk.old) (λ c. IsTrue is_shut → take 1 c ≡ 0 ∷ []) }
    ensures done { OnOk result (D.holds disk.new ≡ of_told (λ _. 0 ∷ []) (D.holds disk.old)) }
    ensures durable { OnOk result (Only (D.holds disk.new) (D.may_leave disk.new)) }
    ensures any_moment { LeavesOnly D.moment D.left_since disk.old disk.new (λ c. generation_of c ≡ 0) }
    ensures up { OnOk result (IsTrue (D.up disk.new)) }
    ensures memory { IsErrOf result StoreFault.NoMemory → IsTrue (D.up disk.new) }
    ensures counts { CountsStop D.downs D.deads (IsErrOf result StoreFault.Down) disk.old disk.new }
    ensures down { IsErrOf result StoreFault.Down → D.up disk.new ≡ false }
{
    shorten(disk, size)?;
    shut_gate(disk, is_shut)
}

/// Whether one byte was read, the byte 0.
fn is_zero(n: usize, byte: u8) -> bool
    ensures { IsTrue result ↔ ((n ≡ 1) × (byte ≡ 0)) }
{
    n == 1 && byte == 0
}

/// Makes the file the single byte 0. At every moment a stop leaves no head, or the generation from before.
fn make_ready<D: Disk>(disk: &mut D) -> Result<(), StoreFault>
    requires up { IsTrue (D.up disk.old) }
    requires synced { Only (D.holds disk.old) (D.may_leave disk.old) }
    ensures done { OnOk result (D.holds disk.new ≡ of_told (λ _. 0 ∷ []) (D.holds disk.old)) }
    ensures durable { OnOk result (Only (D.holds disk.new) (D.may_leave disk.new)) }
    ensures any_moment { LeavesOnly D.moment D.left_since disk.old disk.new (KeepsGeneration (D.may_leave disk.old)) }
    ensures up { OnOk result (IsTrue (D.up disk.new)) }
    ensures memory { IsErrOf result StoreFault.NoMemory → IsTrue (D.up disk.new) }
    ensures counts { CountsStop D.downs D.deads (IsErrOf result StoreFault.Down) disk.old disk.new }
    ensures down { IsErrOf result StoreFault.Down → D.up disk.new ≡ false }
{
    let size = disk.len()?;
    let mut first = [0; 1];
    let n = read_into(disk, &mut first)?;
    let byte = first[0];
    if size >= HEAD && byte == 2 {
        return behead(disk);
    }
    clear(disk, size, is_zero(n, byte))
}

/// Makes these bytes behind the byte 2 the file. At every moment a stop leaves no head, the generation from before,
/// or the whole new file.
pub(crate) fn make_live<D: Disk>(disk: &mut D, bytes: &[u8]) -> Result<(), StoreFault>
    requires up { IsTrue (D.up disk.old) }
    requires synced { Only (D.holds disk.old) (D.may_leave disk.old) }
    ensures done { OnOk result (D.holds disk.new ≡ of_told (λ _. 2 ∷ bytes.now) (D.holds disk.old)) }
    ensures durable { OnOk result (Only (D.holds disk.new) (D.may_leave disk.new)) }
    ensures any_moment { LeavesOnly D.moment D.left_since disk.old disk.new
        (KeepsGenerationOr (2 ∷ bytes.now) (D.may_leave disk.old)) }
    ensures up { OnOk result (IsTrue (D.up disk.new)) }
    ensures memory { IsErrOf result StoreFault.NoMemory → IsTrue (D.up disk.new) }
    ensures counts { CountsStop D.downs D.deads (IsErrOf result StoreFault.Down) disk.old disk.new }
    ensures down { IsErrOf result StoreFault.Down → D.up disk.new ≡ false }
{
    make_ready(disk)?;
    write_synced(disk, 1, bytes)?;
    write_synced(disk, 0, &[2])
}
