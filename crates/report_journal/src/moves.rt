//! What an append and a restart do to the disk.
ghost use Rattle.std.specs.Prelude.{◌≡◌, ◌⊎◌, ◌≤◌, ◌<◌, ◌^◌, ◌+◌, ◌++◌, ◌↔◌, [], ◌∷◌, List, ℕ, length, take, drop, slice_index, IfOk, OnOk, IsErrOf, IsTrue, false};
ghost use Rattle.dap_disk.specs.Disk.{CountsRestart, CountsStop, Tells, NoMore, LeavesOnly, Only, of_told, written};
ghost use Rattle.report_journal.specs.Journal.{Closed, Staged, Either, IsBlock, behind};
ghost use Rattle.report_journal.specs.Log.{EachImage, IsAppended, IsEither, IsShut, IsStaged, contents};

use crate::RestartFault;
use dap_disk::{Disk, StoreFault, write_synced};

/// Writes a block and the next gate behind the shut gate. The first `durable` of what is kept stand, the others come.
fn stage_block<D: Disk>(
    disk: &mut D,
    kept: &[Vec<u8>],
    durable: usize,
    gate: u64,
    bytes: &[u8],
) -> Result<(), StoreFault>
    requires up { IsTrue (D.up disk.old) }
    requires held { Tells (D.holds disk.old) (IsShut kept.now durable gate) }
    requires images { EachImage (D.may_leave disk.old) (IsShut kept.now durable gate) }
    requires bytes { bytes.now ≡ behind (contents (drop durable kept.now)) }
    requires fits { gate + length bytes.now < 2 ^ 64 }
    ensures done { OnOk result (D.holds disk.new ≡ of_told (written (gate + 1) bytes.now) (D.holds disk.old)) }
    ensures staged { OnOk result (Tells (D.holds disk.new) (IsStaged kept.now durable gate)) }
    ensures durable { OnOk result (EachImage (D.may_leave disk.new) (IsStaged kept.now durable gate)) }
    ensures images { EachImage (D.may_leave disk.new) (IsShut kept.now durable gate) }
    ensures any_moment { LeavesOnly D.moment D.left_since disk.old disk.new (IsShut kept.now durable gate) }
    ensures memory { IsErrOf result StoreFault.NoMemory → IsTrue (D.up disk.new)
        × Tells (D.holds disk.new) (IsShut kept.now durable gate) }
    ensures up { OnOk result (IsTrue (D.up disk.new)) }
    ensures counts { CountsStop D.downs D.deads (IsErrOf result StoreFault.Down) disk.old disk.new }
    ensures down { IsErrOf result StoreFault.Down → D.up disk.new ≡ false }
{
    write_synced(disk, gate + 1, bytes)
}

/// Opens the gate before a block that is on the disk.
fn open_gate<D: Disk>(
    disk: &mut D,
    kept: &[Vec<u8>],
    durable: usize,
    gate: u64,
) -> Result<(), StoreFault>
    requires up { IsTrue (D.up disk.old) }
    requires held { Tells (D.holds disk.old) (IsStaged kept.now durable gate) }
    requires images { EachImage (D.may_leave disk.old) (IsStaged kept.now durable gate) }
    requires block { IsBlock (contents (drop durable kept.now)) }
    ensures done { OnOk result (D.holds disk.new ≡ of_told (written gate (1 ∷ [])) (D.holds disk.old)) }
    ensures held { OnOk result (Tells (D.holds disk.new) (IsAppended kept.now durable gate)) }
    ensures durable { OnOk result (EachImage (D.may_leave disk.new) (IsAppended kept.now durable gate)) }
    ensures images { EachImage (D.may_leave disk.new) (IsEither kept.now durable gate) }
    ensures any_moment { LeavesOnly D.moment D.left_since disk.old disk.new (IsEither kept.now durable gate) }
    ensures memory { IsErrOf result StoreFault.NoMemory → IsTrue (D.up disk.new)
        × Tells (D.holds disk.new) (IsShut kept.now durable gate) × (EachImage (D.may_leave disk.new) (IsShut kept.now durable gate)) }
    ensures up { OnOk result (IsTrue (D.up disk.new)) }
    ensures counts { CountsStop D.downs D.deads (IsErrOf result StoreFault.Down) disk.old disk.new }
    ensures down { IsErrOf result StoreFault.Down → D.up disk.new ≡ false }
{
    write_synced(disk, gate, &[1])
}

/// Writes a block behind the shut gate and then opens it. At every moment the block is there whole or not at all.
pub(crate) fn write_block<D: Disk>(
    disk: &mut D,
    kept: &[Vec<u8>],
    durable: usize,
    gate: u64,
    bytes: &[u8],
) -> Result<(), StoreFault>
    requires up { IsTrue (D.up disk.old) }
    requires held { Tells (D.holds disk.old) (IsShut kept.now durable gate) }
    requires images { EachImage (D.may_leave disk.old) (IsShut kept.now durable gate) }
    requires bytes { bytes.now ≡ behind (contents (drop durable kept.now)) }
    requires block { IsBlock (contents (drop durable kept.now)) }
    requires fits { gate + length bytes.now < 2 ^ 64 }
    ensures file { OnOk result (D.holds disk.new
        ≡ of_told (λ c. written gate (1 ∷ []) (written (gate + 1) bytes.now c)) (D.holds disk.old)) }
    ensures held { OnOk result (Tells (D.holds disk.new) (IsAppended kept.now durable gate)) }
    ensures durable { OnOk result (EachImage (D.may_leave disk.new) (IsAppended kept.now durable gate)) }
    ensures up { OnOk result (IsTrue (D.up disk.new)) }
    ensures images { EachImage (D.may_leave disk.new) (IsEither kept.now durable gate) }
    ensures any_moment { LeavesOnly D.moment D.left_since disk.old disk.new (IsEither kept.now durable gate) }
    ensures memory { IsErrOf result StoreFault.NoMemory → IsTrue (D.up disk.new)
        × Tells (D.holds disk.new) (IsShut kept.now durable gate) × (EachImage (D.may_leave disk.new) (IsShut kept.now durable gate)) }
    ensures counts { CountsStop D.downs D.deads (IsErrOf result StoreFault.Down) disk.old disk.new }
    ensures down { IsErrOf result StoreFault.Down → D.up disk.new ≡ false }
{
    stage_block(disk, kept, durable, gate, bytes)?;
    open_gate(disk, kept, durable, gate)
}

/// Restarts the disk, and says whether the gate at this place stands open.
pub(crate) fn gate_after_restart<D: Disk>(disk: &mut D, gate: u64) -> Result<bool, RestartFault>
    ensures told { IfOk result (λ open_gate. Tells (D.holds disk.new)
        (λ c. gate < length c → (IsTrue open_gate ↔ (slice_index c gate ≡ 1)))) }
    ensures image { OnOk result (Tells (D.holds disk.new) (D.may_leave disk.old)) }
    ensures settled { OnOk result (Only (D.holds disk.new) (D.may_leave disk.new)) }
    ensures up { OnOk result (IsTrue (D.up disk.new)) }
    ensures images { NoMore (D.may_leave disk.old) (D.may_leave disk.new) }
    ensures any_moment { LeavesOnly D.moment D.left_since disk.old disk.new (D.may_leave disk.old) }
    ensures counts { CountsRestart D.downs D.deads (IsErrOf result RestartFault.Down)
        (IsErrOf result RestartFault.Dead) disk.old disk.new }
{
    disk.restart()?;
    let mut byte = [0];
    let n = disk.read(gate, &mut byte)?;
    Ok(n == 1 && byte[0] == 1)
}
