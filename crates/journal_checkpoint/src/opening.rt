//! Finding the live disk.
ghost use Rattle.std.specs.Prelude.{◌≡◌, ◌⊎◌, ◌<◌, List, ℕ, take, drop, IfOk, IfErr, OnOk, OnErr, IsErr, IsTrue, false};
ghost use Rattle.dap_disk.specs.Disk.{Tells, NoMore, LeavesOnly, Only, CountsStop};
ghost use Rattle.dap_disk.specs.declared.disk.StoreFault.TheVariants.{Down as StoreDown};
ghost use Rattle.journal_checkpoint.specs.Heads.{generation_of, start_of, IsGeneration, pair_journal, in_order};
ghost use Rattle.journal_checkpoint.specs.Pair.{disks_of, IsOpened, Unwritten, CountsPair};

use crate::head::{HEAD, read_generation};
use crate::{PairDisk, PairRefused};
use dap_disk::{Disk, Down, StoreFault};

/// Syncs a disk and reads its generation.
fn settle<D: Disk>(disk: &mut D) -> Result<u64, Down>
    requires { IsTrue (D.up disk.old) }
    ensures told { IfOk result (λ g. Tells (D.holds disk.new) (IsGeneration g)) }
    ensures durable { OnOk result (Only (D.holds disk.new) (D.may_leave disk.new)) }
    ensures same { D.holds disk.new ≡ D.holds disk.old }
    ensures images { NoMore (D.may_leave disk.old) (D.may_leave disk.new) }
    ensures any_moment { LeavesOnly D.moment D.left_since disk.old disk.new (D.may_leave disk.old) }
    ensures up { OnOk result (IsTrue (D.up disk.new)) }
    ensures counts { CountsStop D.downs D.deads (IsErr result) disk.old disk.new }
    ensures down { OnErr result (D.up disk.new ≡ false) }
{
    disk.sync()?;
    read_generation(disk)
}

/// Where the journal of a file of this generation begins.
fn journal_start(generation: u64) -> u64
    ensures { result ≡ start_of generation }
{
    if generation == 0 { 0 } else { HEAD }
}

/// The disks in the order given.
pub(crate) fn in_given_order<D>(second: bool, live: D, other: D) -> (D, D)
    ensures { result ≡ disks_of second live other }
{
    if second { (other, live) } else { (live, other) }
}

impl<D: Disk> PairDisk<D> {
    /// Finds the live disk of two that are up: that of the greater generation, the first on a tie or where no disk has
    /// a head. It syncs and reads both and writes nothing.
    pub fn open(a: D, b: D) -> Result<PairDisk<D>, PairRefused<D>>
        requires first_up { IsTrue (D.up a) }
        requires second_up { IsTrue (D.up b) }
        ensures opened { IfOk result (λ p. IsOpened D.holds D.up D.may_leave
            p.second p.live p.other p.generation p.start) }
        ensures unwritten { IfOk result (λ p. Unwritten D.holds D.moment D.left_since D.may_leave
            (a, b) (disks_of p.second p.live p.other)) }
        ensures unwritten_err { IfErr result (λ e. Unwritten D.holds D.moment D.left_since D.may_leave
            (a, b) (e.a, e.b)) }
        ensures fault { IfErr result (λ e. e.fault ≡ StoreDown) }
        ensures counts { IfOk result (λ p. CountsPair D.downs D.deads ⊥ (a, b) (disks_of p.second p.live p.other)) }
        ensures counts_err { IfErr result (λ e. CountsPair D.downs D.deads (e.fault ≡ StoreDown) (a, b) (e.a, e.b)) }
    {
        let mut a = a;
        let mut b = b;
        let Ok(of_a) = settle(&mut a) else {
            return Err(PairRefused {
                a,
                b,
                fault: StoreFault::Down,
            });
        };
        let Ok(of_b) = settle(&mut b) else {
            return Err(PairRefused {
                a,
                b,
                fault: StoreFault::Down,
            });
        };
        if of_a < of_b {
            return Ok(PairDisk {
                live: b,
                other: a,
                second: true,
                generation: of_b,
                start: journal_start(of_b),
            });
        }
        Ok(PairDisk {
            live: a,
            other: b,
            second: false,
            generation: of_a,
            start: journal_start(of_a),
        })
    }

    /// The disks in the order given.
    pub fn into_disks(self) -> (D, D)
        ensures disks { result ≡ disks_of self.second self.live self.other }

        // With a head any two images read as the live disk behind it, and so they do without one where the live disk's
        // image has none.
        ensures journal { (x y : List ℕ) → D.may_leave self.live x → D.may_leave self.other y
            → (0 < self.generation) ⊎ (generation_of x ≡ 0)
            → in_order self.second pair_journal x y ≡ drop self.start x }

        // At rest the other disk is up and synced.
        ensures other { IsTrue (D.up self.other) × Only (D.holds self.other) (D.may_leave self.other) }
    {
        let PairDisk {
            live,
            other,
            second,
            generation: _,
            start: _,
        } = self;
        in_given_order(second, live, other)
    }
}
