//! A disk in memory that stops where it is told to.
ghost use Rattle.std.specs.Prelude.{◌≡◌, ◌≤◌, ◌-◌, min, length, Some, IfOk, OnOk, OnErr, IsErr, IsTrue, false};
ghost use Rattle.dap_disk.specs.Disk.{Tells, NoMore, Only, AddsMoment, ReadsFrom, CountsStop, Looked};
ghost use Rattle.dap_disk.specs.History.{IsImage, WasImage};
ghost use Rattle.dap_disk.specs.HistoryLaws.{was_now, was_only, held_is_image};
ghost use Rattle.dap_disk.specs.StoreLaws.{held_fits};

use crate::place::read_from;
use crate::plan::Plan;
use crate::store::Store;
use crate::{Dead, Disk, Down, Image, Stop, StoreFault};
use std::alloc::Global;

/// A disk in memory. A stop leaves what the disk model allows, by the rule that is listed for it.
#[derive(Drop)]
pub struct MemDisk {
    store: Store,
    plan: Plan,
}

impl MemDisk {
    ghost use Rattle.dap_disk.specs.Moves.{plan_of};
    ghost use Rattle.dap_disk.specs.Plan.{new_plan};

    /// A disk with these bytes, all of them synced. Its calls other than `restart` count from 1. At a listed call it
    /// answers `Down`, and the next restart leaves that stop's image. Restart number `dead_from` and all later ones
    /// answer `Dead`. `write_at` and `cut` take their memory first, with what a later sync or restart needs; where
    /// there is none nothing changes, and the call isn't counted. This and all other calls take none.
    pub fn new(alloc: Global, bytes: Vec<u8>, stops: Vec<Stop>, dead_from: Option<u64>) -> MemDisk
        ensures holds { ⟦<MemDisk as Disk>⟧.holds result ≡ Some bytes.items }
        ensures synced { Only (Some bytes.items) (⟦<MemDisk as Disk>⟧.may_leave result) }
        ensures up { IsTrue (⟦<MemDisk as Disk>⟧.up result) }
        ensures counts { (⟦<MemDisk as Disk>⟧.downs result ≡ 0) × (⟦<MemDisk as Disk>⟧.deads result ≡ 0) }
        ensures listed { plan_of result ≡ new_plan stops dead_from }
    {
        MemDisk {
            store: Store::new(alloc, bytes),
            plan: Plan::new(stops, dead_from),
        }
    }

    /// The bytes as they read.
    pub fn bytes(&self) -> &[u8]
        ensures { ⟦<MemDisk as Disk>⟧.holds self.now ≡ Some result.now }
    {
        self.store.bytes()
    }
}

impl Disk for MemDisk {
    ghost use Rattle.dap_disk.specs.Moves.{Moved, held_by};

    ghost holds = { λ m. Some (held_by m) };

    ghost up = { λ m. m.plan.up };

    ghost may_leave = { λ m. IsImage m.store.first.items m.store.events.items };

    ghost moment = { λ m. length m.store.events.items };

    ghost left_since = { λ m t c. WasImage m.store.first.items m.store.events.items t c };

    ghost downs = { λ m. m.plan.downs };

    ghost deads = { λ m. m.plan.deads };

    ghost moves = { λ move old new. Moved move old new };

    ghost counts_now = { λ m t c le now. was_now m.store.first.items m.store.events.items t c le now };

    ghost only_now = { λ m c was. was_only m.store.first.items m.store.events.items c was };

    ghost fits = { λ m c is. held_fits m.store c is };

    ghost held_may_stay = { λ m c up is. held_is_image m.store.first.items m.store.events.items c is };

    fn len(&mut self) -> Result<u64, Down> {
        if self.plan.stops_here() {
            return Err(Down);
        }
        Ok(self.store.bytes().len() as u64)
    }

    fn read(&mut self, at: u64, buf: &mut [u8]) -> Result<usize, Down>
        requires { IsTrue self.old.plan.up }
        ensures within { IfOk result (λ n. n ≤ length buf.old) }
        ensures told { IfOk result (λ n. Tells (Some (held_by self.old)) (ReadsFrom at buf.old buf.new n)) }
        ensures same { Some (held_by self.new) ≡ Some (held_by self.old) }
        ensures images { NoMore (⟦<MemDisk as Disk>⟧.may_leave self.old) (⟦<MemDisk as Disk>⟧.may_leave self.new) }
        ensures time { AddsMoment ⟦<MemDisk as Disk>⟧.moment ⟦<MemDisk as Disk>⟧.left_since
            ⟦<MemDisk as Disk>⟧.may_leave
            self.old self.new }
        ensures up { OnOk result (IsTrue self.new.plan.up) }
        ensures down { OnErr result (self.new.plan.up ≡ false) }
        ensures counts { CountsStop ⟦<MemDisk as Disk>⟧.downs ⟦<MemDisk as Disk>⟧.deads
            (IsErr result) self.old self.new }
        ensures moves { Moved Looked self.old self.new }

        // It reads as far as there are bytes and room, and a refused one leaves the buffer.
        ensures untouched { OnErr result (buf.new ≡ buf.old) }
        ensures full { IfOk result (λ n. n ≡ min (length buf.old) (length (held_by self.old) - at)) }
    {
        if self.plan.stops_here() {
            return Err(Down);
        }
        Ok(read_from(self.store.bytes(), at, buf))
    }

    fn write_at(&mut self, at: u64, bytes: &[u8]) -> Result<(), StoreFault> {
        let Ok(()) = self.store.write(at as usize, bytes) else {
            return Err(StoreFault::NoMemory);
        };
        if self.plan.stops_here() {
            return Err(StoreFault::Down);
        }
        Ok(())
    }

    fn cut(&mut self, len: u64) -> Result<(), StoreFault> {
        let Ok(()) = self.store.cut(len as usize) else {
            return Err(StoreFault::NoMemory);
        };
        if self.plan.stops_here() {
            return Err(StoreFault::Down);
        }
        Ok(())
    }

    fn sync(&mut self) -> Result<(), Down> {
        if self.plan.stops_here() {
            return Err(Down);
        }
        self.store.settle(Image::New);
        Ok(())
    }

    fn restart(&mut self) -> Result<(), Dead> {
        let Some(image) = self.plan.restart() else {
            return Err(Dead);
        };
        self.store.settle(image);
        Ok(())
    }
}
