//! A journal that goes on through stops.
ghost use Rattle.std.specs.Prelude.{◌≡◌, ◌⊎◌, ◌≤◌, ◌<◌, ◌+◌, ◌-◌, ◌++◌, [], List, ℕ, length, IfOk, OnOk, OnErr, IsErrOf, IsTrue, false};
ghost use Rattle.dap_bytes.specs.Causes.{Counts, CountsTries};
ghost use Rattle.dap_disk.specs.Disk.{Tells, LeavesOnly};
ghost use Rattle.report_journal.specs.Journal.{Stands};
ghost use Rattle.report_journal.specs.Log.{ComesBack, IsDownWith, Leaves};
ghost use Rattle.report_journal.specs.Retry.{WithOrWithout};

use crate::{Log, RestartFault};
use dap_disk::Disk;

impl<D: Disk> Log<D> {
    /// Restarts the disk again and again until the journal is up. `left` says how many stops it may meet: each uses up
    /// one, and it gives up with `Down` at the last of them. After a refusal it is down, with the records and the
    /// block in hand as before.
    pub fn restart_through(&mut self, left: &mut u32) -> Result<(), RestartFault>
        requires { 0 < left.old }
        ensures used { (left.new ≤ left.old) × CountsTries (left.old - left.new)
            (D.downs self.old.disk) (D.downs self.new.disk) }
        ensures down { IsErrOf result RestartFault.Down → left.new ≡ 0 }
        ensures borne { IsErrOf result RestartFault.Down ⊎ (0 < left.new) }
        ensures records { OnOk result (ComesBack self.old self.new) }
        ensures told { OnOk result (Tells (D.holds self.new.disk) (Stands self.new.records)) }
        ensures durable { OnOk result ((c : List ℕ) → D.may_leave self.new.disk c → Stands self.new.records c) }
        ensures any_moment { LeavesOnly D.moment D.left_since self.old.disk self.new.disk
            (WithOrWithout self.old.records self.old.coming) }
        ensures same { OnErr result (IsDownWith self.old.coming self.old self.new) }
        ensures at_rest { OnOk result (self.new.coming ≡ []) }
        ensures images { Leaves D.may_leave self.new }

        // One disk at most that doesn't come back is counted, that which it gives up with.
        ensures deaths { Counts (IsErrOf result RestartFault.Dead) (D.deads self.old.disk) (D.deads self.new.disk) }
    {
        'tries: loop {
            match self.restart() {
                Ok(()) => return Ok(()),
                Err(RestartFault::Dead) => return Err(RestartFault::Dead),
                Err(RestartFault::Down) => {}
            }
            *left -= 1;
            if *left == 0 {
                return Err(RestartFault::Down);
            }
        }
    }
}
