//! A change and a sync, as one step.
ghost use Rattle.std.specs.Prelude.{◌≡◌, ◌⊎◌, ◌≤◌, ◌<◌, ◌+◌, List, ℕ, length, take, OnOk, IsErrOf, IsTrue, false};
ghost use Rattle.dap_disk.specs.Disk.{Tells, of_told, written, Torn, Shortened, Follows, Only, LeavesOnly, StepFrom, IsUntouched, CountsStop};

use crate::{Disk, StoreFault};

/// Writes and syncs. At every moment of the call an image is one from before it, torn by this write at most. After
/// `NoMemory` nothing has changed.
pub fn write_synced<D: Disk>(disk: &mut D, at: u64, bytes: &[u8]) -> Result<(), StoreFault>
    requires up { IsTrue (D.up disk.old) }
    requires within { Tells (D.holds disk.old) (λ c. at ≤ length c) }
    ensures done { OnOk result (D.holds disk.new ≡ of_told (written at bytes.now) (D.holds disk.old)) }
    ensures durable { OnOk result (Only (D.holds disk.new) (D.may_leave disk.new)) }
    ensures images { Follows (Torn at (length bytes.now)) (D.may_leave disk.old) (D.may_leave disk.new) }
    ensures any_moment { LeavesOnly D.moment D.left_since disk.old disk.new
        (StepFrom (D.may_leave disk.old) (Torn at (length bytes.now))) }
    ensures memory { IsErrOf result StoreFault.NoMemory → IsUntouched D.holds D.up D.may_leave disk.old disk.new }
    ensures up { OnOk result (IsTrue (D.up disk.new)) }
    ensures counts { CountsStop D.downs D.deads (IsErrOf result StoreFault.Down) disk.old disk.new }
    ensures down { IsErrOf result StoreFault.Down → D.up disk.new ≡ false }
{
    disk.write_at(at, bytes)?;
    disk.sync()?;
    Ok(())
}

/// Cuts and syncs. At every moment of the call an image is one from before it, shortened by this cut at most. After
/// `NoMemory` nothing has changed.
pub fn cut_synced<D: Disk>(disk: &mut D, len: u64) -> Result<(), StoreFault>
    requires up { IsTrue (D.up disk.old) }
    requires within { Tells (D.holds disk.old) (λ c. len ≤ length c) }
    ensures done { OnOk result (D.holds disk.new ≡ of_told (take len) (D.holds disk.old)) }
    ensures durable { OnOk result (Only (D.holds disk.new) (D.may_leave disk.new)) }
    ensures images { Follows (Shortened len) (D.may_leave disk.old) (D.may_leave disk.new) }
    ensures any_moment { LeavesOnly D.moment D.left_since disk.old disk.new
        (StepFrom (D.may_leave disk.old) (Shortened len)) }
    ensures memory { IsErrOf result StoreFault.NoMemory → IsUntouched D.holds D.up D.may_leave disk.old disk.new }
    ensures up { OnOk result (IsTrue (D.up disk.new)) }
    ensures counts { CountsStop D.downs D.deads (IsErrOf result StoreFault.Down) disk.old disk.new }
    ensures down { IsErrOf result StoreFault.Down → D.up disk.new ≡ false }
{
    disk.cut(len)?;
    disk.sync()?;
    Ok(())
}
