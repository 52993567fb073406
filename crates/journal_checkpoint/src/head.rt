//! The head of one disk, and what it tells.
ghost use Rattle.std.specs.Prelude.{◌≡◌, take, IfOk, OnOk, OnErr, IsErr, IsTrue, false};
ghost use Rattle.dap_disk.specs.Disk.{Tells, NoMore, LeavesOnly, CountsStop};
ghost use Rattle.journal_checkpoint.specs.Heads.{generation_of, start_of, front_of, IsGeneration, begins_block};

use dap_disk::{Disk, Down};
use report_journal::read_into;

/// How many bytes a head has: the byte 2 and the generation.
pub(crate) const HEAD: u64 = 9;

/// The generation that a head tells, or 0 where the bytes are none.
fn generation_in(head: &[u8; 9]) -> u64
    ensures is { result ≡ generation_of head.now }
    ensures front { take (start_of result) head.now ≡ front_of result }
{
    if head[0] != 2 {
        return 0;
    }
    u64::from_be_bytes([
        head[1], head[2], head[3], head[4], head[5], head[6], head[7], head[8],
    ])
}

/// The generation of the file on the disk.
pub(crate) fn read_generation<D: Disk>(disk: &mut D) -> Result<u64, Down>
    requires { IsTrue (D.up disk.old) }
    ensures told { IfOk result (λ g. Tells (D.holds disk.old) (IsGeneration g)) }
    ensures same { D.holds disk.new ≡ D.holds disk.old }
    ensures images { NoMore (D.may_leave disk.old) (D.may_leave disk.new) }
    ensures any_moment { LeavesOnly D.moment D.left_since disk.old disk.new (D.may_leave disk.old) }
    ensures up { OnOk result (IsTrue (D.up disk.new)) }
    ensures counts { CountsStop D.downs D.deads (IsErr result) disk.old disk.new }
    ensures down { OnErr result (D.up disk.new ≡ false) }
{
    let mut head = [0; 9];
    let n = read_into(disk, &mut head)?;
    if n < 9 {
        return Ok(0);
    }
    Ok(generation_in(&head))
}

/// Whether the file on the disk begins with an open gate and has a byte behind it.
pub(crate) fn begins_block<D: Disk>(disk: &mut D) -> Result<bool, Down>
    requires { IsTrue (D.up disk.old) }
    ensures told { IfOk result (λ begins. Tells (D.holds disk.old) (λ c. begins ≡ begins_block c)) }
    ensures same { D.holds disk.new ≡ D.holds disk.old }
    ensures images { NoMore (D.may_leave disk.old) (D.may_leave disk.new) }
    ensures any_moment { LeavesOnly D.moment D.left_since disk.old disk.new (D.may_leave disk.old) }
    ensures up { OnOk result (IsTrue (D.up disk.new)) }
    ensures counts { CountsStop D.downs D.deads (IsErr result) disk.old disk.new }
    ensures down { OnErr result (D.up disk.new ≡ false) }
{
    let mut front = [0; 2];
    let n = read_into(disk, &mut front)?;
    Ok(n == 2 && front[0] == 1)
}
