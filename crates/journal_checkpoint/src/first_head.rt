//! Giving a pair its first head.
ghost use Rattle.std.specs.Prelude.{◌≡◌, [], IfOk, IfErr, OnOk, IsErrOf, IsTrue, not, false};
ghost use Rattle.dap_disk.specs.Disk.{Tells, NoMore, LeavesOnly, Only, of_told};
ghost use Rattle.journal_checkpoint.specs.Heads.{begins_block, headed};
ghost use Rattle.journal_checkpoint.specs.Made.{GivesHead};
ghost use Rattle.journal_checkpoint.specs.Pair.{disks_of, IsOpened, KeepsRecords, CountsPair};
ghost use Rattle.journal_checkpoint.specs.Steps.{KeepsOrHeads};

use crate::head::{HEAD, begins_block};
use crate::making::make_live;
use crate::{PairDisk, PairRefused};
use dap_disk::{Disk, StoreFault};

/// What stands behind the byte 2 of a headed file without blocks: the first generation, and a shut gate.
const EMPTY: [u8; 9] = [0, 0, 0, 0, 0, 0, 0, 1, 0];

/// Makes the second disk live, but where the first begins with a block; says whether it did.
fn give_head<D: Disk>(a: &mut D, b: &mut D) -> Result<bool, StoreFault>
    requires first_up { IsTrue (D.up a.old) }
    requires second_up { IsTrue (D.up b.old) }
    requires synced { Only (D.holds b.old) (D.may_leave b.old) }
    ensures told { IfOk result (λ given. Tells (D.holds a.old) (λ c. given ≡ not (begins_block c))) }
    ensures made { IfOk result (λ given. IsTrue given → D.holds b.new ≡ of_told (λ _. headed 1 []) (D.holds b.old)) }
    ensures durable { IfOk result (λ given. IsTrue given → Only (D.holds b.new) (D.may_leave b.new)) }
    ensures kept { IfOk result (λ given. given ≡ false → b.new ≡ b.old) }
    ensures same { D.holds a.new ≡ D.holds a.old }
    ensures images { NoMore (D.may_leave a.old) (D.may_leave a.new) }
    ensures first_moments { LeavesOnly D.moment D.left_since a.old a.new (D.may_leave a.old) }
    ensures second_moments { LeavesOnly D.moment D.left_since b.old b.new
        (KeepsOrHeads (D.holds a.old) (D.may_leave b.old)) }
    ensures up { OnOk result (IsTrue (D.up a.new) × IsTrue (D.up b.new)) }
    ensures memory { IsErrOf result StoreFault.NoMemory → IsTrue (D.up a.new) × IsTrue (D.up b.new) }
    ensures counts { CountsPair D.downs D.deads (IsErrOf result StoreFault.Down) (a.old, b.old) (a.new, b.new) }
{
    if begins_block(a)? {
        return Ok(false);
    }
    make_live(b, &EMPTY)?;
    Ok(true)
}

/// The same of two disks.
fn with_head<D: Disk>(a: D, b: D) -> Result<PairDisk<D>, PairRefused<D>>
    requires first_up { IsTrue (D.up a) }
    requires second_up { IsTrue (D.up b) }
    requires first_synced { Only (D.holds a) (D.may_leave a) }
    requires second_synced { Only (D.holds b) (D.may_leave b) }
    ensures opened { IfOk result (λ p. IsOpened D.holds D.up D.may_leave p.second p.live p.other p.generation p.start) }
    ensures headed { IfOk result (λ p. GivesHead D.holds D.moment D.left_since D.may_leave
        (a, b) (disks_of p.second p.live p.other)) }
    ensures plain { IfOk result (λ p. p.generation ≡ 0 → Tells (D.holds p.live) (λ c. IsTrue (begins_block c))) }
    ensures any_moment { IfErr result (λ e. KeepsRecords D.holds D.moment D.left_since (a, b) (e.a, e.b)) }
    ensures memory { IfErr result (λ e. e.fault ≡ StoreFault.NoMemory → IsTrue (D.up e.a) × IsTrue (D.up e.b)) }
    ensures counts { IfOk result (λ p. CountsPair D.downs D.deads ⊥ (a, b) (disks_of p.second p.live p.other)) }
    ensures counts_err { IfErr result (λ e. CountsPair D.downs D.deads (e.fault ≡ StoreFault.Down) (a, b) (e.a, e.b)) }
{
    let pair = match PairDisk::open(a, b) {
        Ok(pair) => pair,
        Err(refused) => return Err(refused),
    };
    if pair.generation > 0 {
        return Ok(pair);
    }
    let PairDisk {
        live,
        other,
        second,
        generation,
        start,
    } = pair;
    let mut a = live;
    let mut b = other;
    match give_head(&mut a, &mut b) {
        Ok(true) => Ok(PairDisk {
            live: b,
            other: a,
            second: true,
            generation: 1,
            start: HEAD,
        }),
        Ok(false) => Ok(PairDisk {
            live: a,
            other: b,
            second,
            generation,
            start,
        }),
        Err(fault) => Err(PairRefused { a, b, fault }),
    }
}

impl<D: Disk> PairDisk<D> {
    /// Gives the pair a head, so that no stop in a gate at place 0 can look like one. Where a disk has a head, or the
    /// first begins with a block, it writes nothing. Else the pair stands for no records, and the second disk is made
    /// live with generation 1 and no block. At every moment any two images stand for the same records. It wants a pair
    /// with nothing written since the last sync.
    pub fn head(self) -> Result<PairDisk<D>, PairRefused<D>>
        requires up { IsTrue (D.up self.live) }
        requires synced { Only (D.holds self.live) (D.may_leave self.live) }
        ensures opened { IfOk result (λ p. IsOpened D.holds D.up D.may_leave
            p.second p.live p.other p.generation p.start) }
        ensures headed { IfOk result (λ p. GivesHead D.holds D.moment D.left_since D.may_leave
            (disks_of self.second self.live self.other) (disks_of p.second p.live p.other)) }

        // Without a head the first disk begins with a block, and so no image of it has one.
        ensures plain { IfOk result (λ p. p.generation ≡ 0 → Tells (D.holds p.live) (λ c. IsTrue (begins_block c))) }

        ensures any_moment { IfErr result (λ e. KeepsRecords D.holds D.moment D.left_since
            (disks_of self.second self.live self.other) (e.a, e.b)) }
        ensures memory { IfErr result (λ e. e.fault ≡ StoreFault.NoMemory → IsTrue (D.up e.a) × IsTrue (D.up e.b)) }
        ensures counts { IfOk result (λ p. CountsPair D.downs D.deads ⊥
            (disks_of self.second self.live self.other) (disks_of p.second p.live p.other)) }
        ensures counts_err { IfErr result (λ e. CountsPair D.downs D.deads (e.fault ≡ StoreFault.Down)
            (disks_of self.second self.live self.other) (e.a, e.b)) }
    {
        let (a, b) = self.into_disks();
        with_head(a, b)
    }
}
