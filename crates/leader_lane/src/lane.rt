//! A lane of the leader.

ghost use Rattle.std.specs.Prelude.{◌≡◌, ◌↔◌, ◌⊎◌, ◌≤◌, ◌<◌, [], ℕ, List, max, length, IsTrue, IfOk, IfErr, OnOk, Ok, Err, false};
ghost use Rattle.lane_records.specs.Records.{record_};
ghost use Rattle.lane_records.specs.declared.record.Record.{Record};
ghost use Rattle.part_journal.specs.Counts.{CountsStops};
ghost use Rattle.part_journal.specs.Part.{Holds, IsAtRest, IsOf};
ghost use Rattle.report_journal.specs.Log.{Leaves};
ghost use Rattle.leader_lane.specs.Book.{emptied, settled_by};
ghost use Rattle.leader_lane.specs.Lane.{CountsSince, Goes, IsOpened, IsHandedBack, IsStopped};
ghost use Rattle.leader_lane.specs.Sound.{IsPlace, Spells, opener_of};

use crate::book::Book;
use crate::catalog::Catalog;
use crate::faults::{fault_of, has_stopped, of_lane};
use crate::parts::{LaneParts, LaneRefused};
use dap_disk::Disk;
use dap_outside::Fates;
use dap_tasks::{Answer, Tasks};
use dap_wire::{LaneEnd, LinkEnd};
use lane_records::{Format, LaneFault, Place, Record, read_records, records_are_bounded};
use part_journal::{MOST_STOPS, PartJournal, PartRefused};
use report_journal::Log;
use std::alloc::Global;
use std::marker::Model;
use vdaf_api::Vdaf;

/// A lane of the leader: it judges uploads, and appends the reports that it accepts to its journal. Contracts see its
/// journal, its uploads in hand, its answers and its ends of the rings. After a refusal that leaves it down only `up`,
/// `place`, `stopped`, `restart` and `into_parts` stand open.
#[derive(Drop)]
pub struct LeaderLane<V: Vdaf, D: Disk, T: Fates> {
    pub(crate) journal: PartJournal<D, Record>,
    pub(crate) book: Book,
    pub(crate) catalog: Catalog,
    pub(crate) front: LaneEnd,
    pub(crate) link: LinkEnd<T>,
    pub(crate) tasks: Tasks<V>,
    pub(crate) place: Place,
    pub(crate) start: usize,
    pub(crate) stopped: bool,
}

impl<V: Vdaf, D: Disk, T: Fates> Model for LeaderLane<V, D, T> {
    ghost use Rattle.leader_lane.specs.Lane.{LaneView, IsLane};

    ghost Value = { LaneView D T };

    ghost view = { λ a. record {
      part = a.journal;
      book = a.book;
      front = a.front;
      link = a.link;
      tasks = a.tasks;
      place = a.place;
      start = a.start;
      stopped = a.stopped;
    } };

    ghost invariant = { λ a. IsLane a.catalog (record {
      part = a.journal;
      book = a.book;
      front = a.front;
      link = a.link;
      tasks = a.tasks;
      place = a.place;
      start = a.start;
      stopped = a.stopped;
    }) };
}

/// The Open that a lane appends.
fn opener_of(place: Place) -> Record
    ensures { result ≡ opener_of place }
{
    Record::LeaderOpen(Format::Two, place.lanes, place.lane)
}

impl<V: Vdaf, D: Disk, T: Fates> LeaderLane<V, D, T> {
    /// Opens a lane over the legal journal that its log holds, whose Opens name its number of lanes, and appends an
    /// Open. Nothing was sent from its end of the link and nothing was taken from its end of the ring of uploads. A
    /// refusal hands back the log and the ends.
    pub fn open(
        alloc: Global,
        log: Log<D>,
        place: Place,
        tasks: Tasks<V>,
        front: LaneEnd,
        link: LinkEnd<T>,
    ) -> Result<LeaderLane<V, D, T>, LaneRefused<D, T>>
        requires up { IsTrue log.up }
        requires place { IsPlace place }
        requires journal { (records : List Record) × Spells place log.records records }
        requires front { front.received ≡ [] }
        requires link { link.sent ≡ [] }

        ensures opened { IfOk result (λ lane. (records : List Record) → Spells place log.records records
            → IsOpened records lane) }
        ensures given { IfOk result (λ lane. (lane.place ≡ place) × (lane.tasks ≡ tasks) × (lane.front ≡ front)
            × (lane.link ≡ link)) }
        ensures counts { IfOk result (λ lane. CountsStops D.downs D.deads ⊥ MOST_STOPS lane.part.left log.disk
            lane.part.disk) }
        ensures since { IfOk result (λ lane. CountsSince D.downs D.deads (D.downs log.disk) (D.deads log.disk)
            lane.part) }

        ensures refused { IfErr result (λ e. (records : List Record) → Spells place log.records records
            → IsHandedBack (record { tasks = tasks; place = place }) records e.log) }
        ensures images { IfErr result (λ e. Leaves D.may_leave e.log) }
        ensures ends { IfErr result (λ e. (e.front ≡ front) × (e.link ≡ link)) }
        ensures counts_err { IfErr result (λ e. (left : ℕ)
            × CountsStops D.downs D.deads (e.fault ≡ LaneFault.Stopped) MOST_STOPS left log.disk e.log.disk) }
    {
        records_are_bounded();
        let _up = log.up();
        let Ok(records) = read_records(alloc, log.records()) else {
            return Err(LaneRefused {
                log,
                front,
                link,
                fault: LaneFault::NoMemory,
            });
        };
        let mut catalog = Catalog::new(alloc);
        let Ok(()) = catalog.catch_up(&records) else {
            return Err(LaneRefused {
                log,
                front,
                link,
                fault: LaneFault::NoMemory,
            });
        };
        let start = records.len();
        match PartJournal::open(alloc, log, records, opener_of(place)) {
            Ok(journal) => Ok(LeaderLane {
                journal,
                book: Book::new(alloc),
                catalog,
                front,
                link,
                tasks,
                place,
                start,
                stopped: false,
            }),
            Err(PartRefused { log, fault }) => Err(LaneRefused {
                log,
                front,
                link,
                fault: fault_of(fault),
            }),
        }
    }

    /// Whether it takes calls. It takes no memory.
    pub fn up(&self) -> bool
        ensures up { result ≡ self.now.part.up }
        ensures rest { IsTrue self.now.part.up → IsAtRest self.now.part.pages self.now.part.left }
        ensures calm { IsTrue self.now.part.up → self.now.stopped ≡ false }
        ensures images { Holds D.may_leave record_.spell self.now.part }
    {
        self.journal.up()
    }

    /// Where it stands. It takes no memory.
    pub fn place(&self) -> Place
        ensures place { result ≡ self.now.place }
        ensures ranges { IsPlace result }
    {
        self.place
    }

    /// Whether it is down and the call that left it down answered `Stopped`. It takes no memory.
    pub fn stopped(&self) -> bool
        ensures stopped { result ≡ self.now.stopped }
        ensures cause { IsStopped self.now }
    {
        self.stopped
    }

    /// Restarts the disk until the lane is back with an Open. What becomes of a block in hand is known then: where it is
    /// found its uploads are judged, else they stay in hand.
    pub fn restart(&mut self, alloc: Global) -> Result<(), LaneFault>
        ensures goes { Goes D.downs D.deads self.old self.new }
        ensures counts { CountsStops D.downs D.deads (result ≡ Err LaneFault.Stopped) (max self.old.part.left 1)
            self.new.part.left self.old.part.disk self.new.part.disk }
        ensures stopped { IsTrue self.new.stopped ↔ (result ≡ Err LaneFault.Stopped) }
        ensures up { OnOk result (IsTrue self.new.part.up) }
        ensures book { self.new.book ≡ settled_by self.new.part.pages.fate self.old.book }
        ensures front { self.new.front ≡ self.old.front }
    {
        let outcome = self.journal.restart(alloc);
        self.book.settle(self.journal.fate());
        self.catalog.settle(self.journal.fate());
        self.stopped = has_stopped(&outcome);
        of_lane(outcome)
    }

    /// The kept answers, which are handed out. It takes no memory.
    pub fn answers(&mut self, alloc: Global) -> Vec<Answer>
        requires up { IsTrue self.old.part.up }
        ensures answers { result.items ≡ self.old.book.answers }
        ensures rest { self.new ≡ record self.old { book = emptied self.old.book } }
    {
        let _up = self.journal.up();
        self.book.take_answers(alloc)
    }

    /// The log and the ends of the rings.
    pub fn into_parts(self) -> LaneParts<D, T>
        ensures disk { result.log.disk ≡ self.part.disk }
        ensures holds { IsOf record_.spell self.part.pages result.log }
        ensures images { Leaves D.may_leave result.log }
        ensures up { IsTrue self.part.up → IsTrue result.log.up }
        ensures ends { (result.front ≡ self.front) × (result.link ≡ self.link) }
    {
        let LeaderLane {
            journal,
            book: _,
            catalog: _,
            front,
            link,
            tasks: _,
            place: _,
            start: _,
            stopped: _,
        } = self;
        LaneParts {
            log: journal.into_log(),
            front,
            link,
        }
    }
}
