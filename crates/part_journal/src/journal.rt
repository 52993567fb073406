//! The journal of a part.
ghost use Rattle.std.specs.Prelude.{◌≡◌, ◌≢◌, None, ◌⊎◌, ◌≤◌, ◌<◌, ◌-◌, ◌+◌, ◌∷◌, [], ℕ, Bool, map, length, max, IfOk, IfErr, OnOk, OnErr, Ok, Err, IsTrue, true, false};
ghost use Rattle.std.specs.List.{list_all};
ghost use Rattle.dap_disk.specs.Disk.{CountsStop};
ghost use Rattle.report_journal.specs.Journal.{body};
ghost use Rattle.report_journal.specs.Log.{Leaves};
ghost use Rattle.part_journal.specs.Came.{Came, IsIdle};
ghost use Rattle.part_journal.specs.Counts.{CountsStops};
ghost use Rattle.part_journal.specs.Pages.{Pages, begun, done, settled, reopening, reopened, refused, first_pages, IsBack, Restarted, UnderWay, Opening};
ghost use Rattle.part_journal.specs.Part.{ComesBack, DeadWhere, Holds, IsAtRest, IsDone, IsOf, IsRefused, SameOpening, StaysDown};

use crate::fault::{Appended, MOST_STOPS, PartFault, Tried};
use crate::shelf::Shelf;
use crate::spelling::{copy_of, spelled, spelled_one};
use crate::tries::{append_block, settle};
use dap_bytes::LONGEST_BLOCK;
use dap_disk::Disk;
use dap_messages::Spelled;
use report_journal::{Log, RestartFault};
use std::alloc::Global;
use std::marker::Model;

/// The journal of a part. Contracts see its disk, its records and the block in hand as values, and how many stops may
/// still come. After a refusal that leaves it down only `restart` takes it further; its records, `in_hand`, `fate` and
/// `into_log` stand open always.
#[derive(Drop)]
pub struct PartJournal<D: Disk, R: Spelled> {
    log: Log<D>,
    shelf: Shelf<R>,
    opening: usize,
    opener: R,
    up: bool,
    dead: bool,
    left: u32,
}

impl<D: Disk, R: Spelled> Model for PartJournal<D, R> {
    ghost use Rattle.part_journal.specs.Part.{PartView, IsPart};

    ghost Value = { PartView D R };

    ghost view = { λ a. record {
      disk = a.log.disk;
      pages = a.shelf;
      opener = a.opener;
      opening = a.opening;
      up = a.up;
      woken = a.log.up;
      dead = a.dead;
      left = a.left;
    } };

    ghost invariant = { λ a. IsPart R.grammar D.may_leave a.log a.shelf a.opener a.opening a.left a.up };
}

/// Why an opening was refused, with the log.
#[derive(Drop)]
pub struct PartRefused<D: Disk> {
    /// The log: its records are those that were given and the Opens that count, and an Open may be in hand.
    pub log: Log<D>,
    /// Why.
    pub fault: PartFault,
}

impl<D: Disk, R: Spelled> PartJournal<D, R> {
    /// Whether it takes blocks.
    pub fn up(&self) -> bool
        ensures up { result ≡ self.now.up }
        ensures rest { IsTrue self.now.up → IsAtRest self.now.pages self.now.left }
        ensures idle { IsIdle self.now.opener self.now.pages }
        ensures images { Holds D.may_leave R.grammar.spell self.now }
    {
        self.up
    }

    /// The records, the oldest first.
    pub fn records(&self) -> &[R]
        ensures records { result.now ≡ self.now.pages.records }
        ensures opening { self.now.opening ≤ length self.now.pages.records }
    {
        self.shelf.records()
    }

    /// The block in hand, whose fate a stop has left open, or the Open on the way back; nothing where it is up.
    pub fn in_hand(&self) -> &[R]
        ensures block { result.now ≡ self.now.pages.block }
        ensures rest { IsTrue self.now.up → result.now ≡ [] }
    {
        self.shelf.in_hand()
    }

    /// What became of the last block that an append began: it counts or not; none while that is open.
    pub fn fate(&self) -> Option<bool>
        ensures fate { result ≡ self.now.pages.fate }
        ensures rest { IsTrue self.now.up → result ≢ None }
    {
        self.shelf.fate()
    }

    fn left(&self) -> u32
        ensures { result ≡ self.now.left }
    {
        self.left
    }

    /// Restarts the disk until the log takes an Open, and finds out whether the block in hand counts.
    fn wake(&mut self) -> Result<(), PartFault>
        ensures ok { OnOk result ((kept : Bool) × (self.new.pages ≡ settled kept self.old.pages)) }
        ensures err { OnErr result (self.new.pages ≡ self.old.pages) }
        ensures woken { OnOk result (IsTrue self.new.woken) }
        ensures down { self.new.up ≡ false }
        ensures dead { DeadWhere (result ≡ Err PartFault.Stopped) self.old self.new }
        ensures counts { CountsStops D.downs D.deads (result ≡ Err PartFault.Stopped)
            (max self.old.left 1) self.new.left self.old.disk self.new.disk }
        ensures same { SameOpening self.old self.new }
    {
        self.up = false;
        let mut left = self.left.max(1);
        let outcome = self.log.restart_through(&mut left);
        self.left = left;
        match outcome {
            Ok(()) => {
                let _kept = settle(&self.log, &mut self.shelf);
                Ok(())
            }
            Err(RestartFault::Dead) => {
                self.dead = true;
                Err(PartFault::Stopped)
            }
            Err(RestartFault::Down) => Err(PartFault::Stopped),
        }
    }

    /// Appends an Open.
    #[tactic(auto, using(crate::proofs::Maps::map_push))]
    fn reopen(&mut self, alloc: Global) -> Result<Tried, PartFault>
        requires woken { IsTrue self.old.woken }
        requires block { self.old.pages.block ≡ [] }
        requires fate { self.old.pages.fate ≢ None }
        requires down { self.old.up ≡ false }
        requires left { 0 < self.old.left }
        ensures done { result ≡ Ok Tried.Done → (self.new.pages ≡ reopened (reopening self.old.opener self.old.pages))
            × IsTrue self.new.up × (self.new.left ≡ self.old.left) }
        ensures stop { result ≡ Ok Tried.Stop → (self.new.pages ≡ reopening self.old.opener self.old.pages)
            × (self.new.up ≡ false)
            × (self.new.left ≡ self.old.left - 1) }
        ensures err { OnErr result
            ((self.new.pages ≡ self.old.pages) × (self.new.up ≡ false) × (self.new.left ≡ self.old.left)) }
        ensures memory { result ≢ Err PartFault.Stopped }
        ensures dead { self.new.dead ≡ self.old.dead }
        ensures counts { CountsStop D.downs D.deads (result ≡ Ok Tried.Stop) self.old.disk self.new.disk }
        ensures same { SameOpening self.old self.new }
    {
        let Ok(opener) = copy_of(alloc, &self.opener) else {
            return Err(PartFault::NoMemory);
        };
        let Ok(block) = spelled_one(alloc, &opener) else {
            return Err(PartFault::NoMemory);
        };
        let Ok(()) = self.shelf.reopen(opener) else {
            return Err(PartFault::NoMemory);
        };
        match append_block(alloc, &mut self.log, &block) {
            Ok(Tried::Done) => {
                self.shelf.land_open();
                self.up = true;
                Ok(Tried::Done)
            }
            Ok(Tried::Stop) => {
                self.left -= 1;
                Ok(Tried::Stop)
            }
            Err(_) => {
                self.shelf.lose();
                Err(PartFault::NoMemory)
            }
        }
    }

    /// Appends a block, as far as it goes without a restart.
    fn put(&mut self, alloc: Global, block: Vec<R>) -> Result<Tried, PartFault>
        requires up { IsTrue self.old.up }
        requires some { 0 < length block.items }
        requires allowed { IsTrue (list_all R.grammar.allowed block.items) }
        requires size { length (body (map R.grammar.spell block.items)) ≤ LONGEST_BLOCK }
        ensures done { result ≡ Ok Tried.Done → IsDone block.items self.old self.new }
        ensures stop { result ≡ Ok Tried.Stop → (self.new.pages ≡ begun block.items self.old.pages)
            × (self.new.up ≡ false)
            × (self.new.left ≡ self.old.left - 1) }
        ensures err { OnErr result (IsRefused self.old self.new) }
        ensures memory { result ≢ Err PartFault.Stopped }
        ensures dead { self.new.dead ≡ self.old.dead }
        ensures counts { CountsStop D.downs D.deads (result ≡ Ok Tried.Stop) self.old.disk self.new.disk }
        ensures same { SameOpening self.old self.new }
    {
        let _up = self.up;
        let Ok(bytes) = spelled(alloc, &block) else {
            self.shelf.take_back();
            return Err(PartFault::NoMemory);
        };
        let Ok(()) = self.shelf.begin(block) else {
            self.shelf.take_back();
            return Err(PartFault::NoMemory);
        };
        match append_block(alloc, &mut self.log, &bytes) {
            Ok(Tried::Done) => {
                self.shelf.land();
                Ok(Tried::Done)
            }
            Ok(Tried::Stop) => {
                self.up = false;
                self.left -= 1;
                Ok(Tried::Stop)
            }
            Err(_) => {
                self.shelf.take_back();
                Err(PartFault::NoMemory)
            }
        }
    }

    /// Appends an Open behind each restart, until it stays.
    fn reopen_through(&mut self, alloc: Global) -> Result<(), PartFault>
        requires woken { IsTrue self.old.woken }
        requires block { self.old.pages.block ≡ [] }
        requires fate { self.old.pages.fate ≢ None }
        requires down { self.old.up ≡ false }
        requires left { 0 < self.old.left }
        ensures ok { OnOk result (IsTrue self.new.up
            × IsBack self.old.opener (reopening self.old.opener self.old.pages) self.new.pages) }
        ensures err { OnErr result ((self.new.up ≡ false) × Opening self.old.opener self.old.pages self.new.pages) }
        ensures dead { DeadWhere (result ≡ Err PartFault.Stopped) self.old self.new }
        ensures counts { CountsStops D.downs D.deads
            (result ≡ Err PartFault.Stopped) self.old.left self.new.left self.old.disk self.new.disk }
        ensures same { SameOpening self.old self.new }
    {
        'tries: loop {
            match self.reopen(alloc) {
                Ok(Tried::Done) => return Ok(()),
                Ok(Tried::Stop) => {}
                Err(fault) => return Err(fault),
            }
            if self.left() == 0 {
                return Err(PartFault::Stopped);
            }
            match self.wake() {
                Ok(()) => {}
                Err(fault) => return Err(fault),
            }
        }
    }

    /// Appends a block of records, at least one, and `LONGEST_BLOCK` bytes at most with the four of each record's length.
    /// After a stop the disk is restarted until the journal is back with an Open; a block that is lost isn't tried
    /// again. Where memory runs out before a stop all is as it was; where it runs out on the way back, and after
    /// `Stopped`, the journal is down.
    pub fn append(&mut self, alloc: Global, block: Vec<R>) -> Result<Appended, PartFault>
        requires up { IsTrue self.old.up }
        requires some { 0 < length block.items }
        requires allowed { IsTrue (list_all R.grammar.allowed block.items) }
        requires size { length (body (map R.grammar.spell block.items)) ≤ LONGEST_BLOCK }

        ensures done { result ≡ Ok Appended.Done → IsDone block.items self.old self.new }
        ensures kept { result ≡ Ok Appended.Kept → ComesBack true block.items self.old self.new }
        ensures lost { result ≡ Ok Appended.Lost → ComesBack false block.items self.old self.new }
        ensures memory { result ≡ Err PartFault.NoMemory → IsRefused self.old self.new
            ⊎ StaysDown (begun block.items self.old.pages) self.old self.new }
        ensures stopped { result ≡ Err PartFault.Stopped
            → StaysDown (begun block.items self.old.pages) self.old self.new }

        // On every answer.
        ensures came { Came self.old.opener (begun block.items self.old.pages) self.new.pages }
        ensures dead { DeadWhere (result ≡ Err PartFault.Stopped) self.old self.new }
        ensures counts { CountsStops D.downs D.deads
            (result ≡ Err PartFault.Stopped) self.old.left self.new.left self.old.disk self.new.disk }
        ensures same { SameOpening self.old self.new }
    {
        let _up = self.up();
        match self.put(alloc, block) {
            Ok(Tried::Done) => return Ok(Appended::Done),
            Ok(Tried::Stop) => {}
            Err(fault) => return Err(fault),
        }
        if self.left() == 0 {
            return Err(PartFault::Stopped);
        }
        match self.wake() {
            Ok(()) => {}
            Err(fault) => return Err(fault),
        }
        let kept = self.fate() == Some(true);
        match self.reopen_through(alloc) {
            Ok(()) if kept => Ok(Appended::Kept),
            Ok(()) => Ok(Appended::Lost),
            Err(fault) => Err(fault),
        }
    }

    /// Restarts the disk until the journal is back with an Open. What became of a block in hand is known then. After a
    /// refusal it is down; a restart may be tried again, and it may meet one stop though none is left.
    pub fn restart(&mut self, alloc: Global) -> Result<(), PartFault>
        ensures ok { OnOk result (IsTrue self.new.up
            × ((kept : Bool) × Restarted self.old.opener kept self.old.pages self.new.pages)) }
        ensures err { OnErr result (StaysDown self.old.pages self.old self.new) }

        // On every answer.
        ensures came { Came self.old.opener self.old.pages self.new.pages }
        ensures dead { DeadWhere (result ≡ Err PartFault.Stopped) self.old self.new }
        ensures counts { CountsStops D.downs D.deads (result ≡ Err PartFault.Stopped)
            (max self.old.left 1) self.new.left self.old.disk self.new.disk }
        ensures same { SameOpening self.old self.new }
    {
        let _up = self.up();
        match self.wake() {
            Ok(()) => self.reopen_through(alloc),
            Err(fault) => Err(fault),
        }
    }

    /// The log, which takes blocks where the journal does.
    pub fn into_log(self) -> Log<D>
        ensures disk { result.disk ≡ self.disk }
        ensures holds { IsOf R.grammar.spell self.pages result }
        ensures images { Leaves D.may_leave result }
        ensures up { IsTrue self.up → IsTrue result.up }
    {
        let PartJournal {
            log,
            shelf: _,
            opening: _,
            opener: _,
            up: _,
            dead: _,
            left: _,
        } = self;
        log
    }

    /// Opens a journal over the records that its log holds, and appends an Open, as `append` goes on through stops.
    pub fn open(
        alloc: Global,
        log: Log<D>,
        records: Vec<R>,
        opener: R,
    ) -> Result<PartJournal<D, R>, PartRefused<D>>
        requires up { IsTrue log.up }
        requires rest { log.coming ≡ [] }
        requires records { log.records ≡ map R.grammar.spell records.items }
        requires allowed { IsTrue (R.grammar.allowed opener) }
        requires room { 4 + length (R.grammar.spell opener) ≤ LONGEST_BLOCK }

        ensures ok { IfOk result
            (λ j. IsTrue j.up × IsBack opener (reopening opener (first_pages records.items)) j.pages) }
        ensures came { IfOk result (λ j. Came opener (first_pages records.items) j.pages) }
        ensures begins { IfOk result
            (λ j. (j.opener ≡ opener) × (j.opening ≡ length records.items) × (j.dead ≡ false)) }
        ensures counts { IfOk result (λ j. CountsStops D.downs D.deads ⊥ MOST_STOPS j.left log.disk j.disk) }

        ensures err { IfErr result (λ e. (q : Pages R) × Opening opener (first_pages records.items) q
            × IsOf R.grammar.spell q e.log) }
        ensures images { IfErr result (λ e. Leaves D.may_leave e.log) }
        ensures counts_err { IfErr result (λ e. (left : ℕ)
            × CountsStops D.downs D.deads (e.fault ≡ PartFault.Stopped) MOST_STOPS left log.disk e.log.disk) }
    {
        let _up = log.up();
        let opening = records.len();
        let mut journal = PartJournal {
            log,
            shelf: Shelf::new(records),
            opening,
            opener,
            up: false,
            dead: false,
            left: MOST_STOPS,
        };
        match journal.reopen_through(alloc) {
            Ok(()) => Ok(journal),
            Err(fault) => Err(PartRefused {
                log: journal.into_log(),
                fault,
            }),
        }
    }
}
