//! Making a checkpoint of a pair.
ghost use Rattle.std.specs.Prelude.{◌≡◌, ◌⊎◌, ℕ, IfOk, IfErr, IsTrue};
ghost use Rattle.dap_disk.specs.Disk.{Only};
ghost use Rattle.journal_checkpoint.specs.Made.{Checkpoints, FindsNone, IsLast};
ghost use Rattle.journal_checkpoint.specs.Pair.{disks_of, IsOpened, KeepsRecords, CountsPair};

use crate::head::HEAD;
use crate::opening::in_given_order;
use crate::packing::pack_onto;
use crate::{CheckFault, CheckRefused, PairDisk};
use dap_disk::Disk;
use std::alloc::Global;

/// The same of two disks.
fn with_checkpoint<D: Disk>(
    alloc: Global,
    a: D,
    b: D,
    over: u32,
) -> Result<(PairDisk<D>, bool), CheckRefused<D>>
    requires first_up { IsTrue (D.up a) }
    requires second_up { IsTrue (D.up b) }
    requires first_synced { Only (D.holds a) (D.may_leave a) }
    requires second_synced { Only (D.holds b) (D.may_leave b) }
    ensures opened { IfOk result (λ r. IsOpened D.holds D.up D.may_leave
        r.0.second r.0.live r.0.other r.0.generation r.0.start) }
    ensures made { IfOk result (λ r. Checkpoints D.holds D.moment D.left_since D.may_leave
        (a, b) (disks_of r.0.second r.0.live r.0.other) over r.1) }
    ensures any_moment { IfErr result (λ e. KeepsRecords D.holds D.moment D.left_since (a, b) (e.a, e.b)) }
    ensures none { IfErr result (λ e. (at : ℕ) → e.fault ≡ CheckFault.NotAJournal at →
        FindsNone D.holds D.moment D.left_since D.may_leave (a, b) (e.a, e.b) at) }
    ensures last { IfErr result (λ e. e.fault ≡ CheckFault.Last →
        IsLast D.holds D.moment D.left_since D.may_leave (a, b) (e.a, e.b) over) }
    ensures up { IfErr result (λ e. (e.fault ≡ CheckFault.Down) ⊎ (IsTrue (D.up e.a) × IsTrue (D.up e.b))) }
    ensures counts { IfOk result (λ r. CountsPair D.downs D.deads ⊥ (a, b) (disks_of r.0.second r.0.live r.0.other)) }
    ensures counts_err { IfErr result (λ e. CountsPair D.downs D.deads (e.fault ≡ CheckFault.Down) (a, b) (e.a, e.b)) }
{
    let opened = match PairDisk::open(a, b) {
        Ok(pair) => pair,
        Err(refused) => {
            return Err(CheckRefused {
                a: refused.a,
                b: refused.b,
                fault: CheckFault::Down,
            });
        }
    };
    let PairDisk {
        live,
        other,
        second,
        generation,
        start,
    } = opened;
    let mut live = live;
    let mut other = other;
    match pack_onto(alloc, &mut live, &mut other, start, generation, over) {
        Ok(true) => Ok((
            PairDisk {
                live: other,
                other: live,
                second: !second,
                generation: generation + 1,
                start: HEAD,
            },
            true,
        )),
        Ok(false) => Ok((
            PairDisk {
                live,
                other,
                second,
                generation,
                start,
            },
            false,
        )),
        Err(fault) => {
            let (a, b) = in_given_order(second, live, other);
            Err(CheckRefused { a, b, fault })
        }
    }
}

impl<D: Disk> PairDisk<D> {
    /// Packs the journal onto the other disk, and makes that the live one, where it has more than `over` blocks; says
    /// whether it did. A block gets the most records that fit. Else it writes nothing, and so it does where the bytes
    /// are no journal or where no generation comes after this one. At every moment any two images stand for the same
    /// records. It wants a pair with nothing written since the last sync.
    pub fn checkpoint(
        self,
        alloc: Global,
        over: u32,
    ) -> Result<(PairDisk<D>, bool), CheckRefused<D>>
        requires up { IsTrue (D.up self.live) }
        requires synced { Only (D.holds self.live) (D.may_leave self.live) }
        ensures opened { IfOk result (λ r. IsOpened D.holds D.up D.may_leave
            r.0.second r.0.live r.0.other r.0.generation r.0.start) }
        ensures made { IfOk result (λ r. Checkpoints D.holds D.moment D.left_since D.may_leave
            (disks_of self.second self.live self.other) (disks_of r.0.second r.0.live r.0.other) over r.1) }
        ensures any_moment { IfErr result (λ e. KeepsRecords D.holds D.moment D.left_since
            (disks_of self.second self.live self.other) (e.a, e.b)) }
        ensures none { IfErr result (λ e. (at : ℕ) → e.fault ≡ CheckFault.NotAJournal at →
            FindsNone D.holds D.moment D.left_since D.may_leave
            (disks_of self.second self.live self.other) (e.a, e.b) at) }
        ensures last { IfErr result (λ e. e.fault ≡ CheckFault.Last → IsLast D.holds D.moment D.left_since D.may_leave
            (disks_of self.second self.live self.other) (e.a, e.b) over) }
        ensures up { IfErr result (λ e. (e.fault ≡ CheckFault.Down) ⊎ (IsTrue (D.up e.a) × IsTrue (D.up e.b))) }
        ensures counts { IfOk result (λ r. CountsPair D.downs D.deads ⊥
            (disks_of self.second self.live self.other) (disks_of r.0.second r.0.live r.0.other)) }
        ensures counts_err { IfErr result (λ e. CountsPair D.downs D.deads (e.fault ≡ CheckFault.Down)
            (disks_of self.second self.live self.other) (e.a, e.b)) }
    {
        let (a, b) = self.into_disks();
        with_checkpoint(alloc, a, b, over)
    }
}
