//! A lane of the helper.

ghost use Rattle.std.specs.Prelude.{◌≡◌, ◌⊎◌, ◌↔◌, ◌∷◌, ◌++◌, [], List, ℕ, max, Some, None, Ok, Err, IsTrue, IfErr, IfOk, OnErr, OnOk, Result, false, length};
ghost use Rattle.std.specs.List.{find};
ghost use Rattle.dap_tasks.specs.Task.{has_name};
ghost use Rattle.dap_views.specs.Request.{request_of};
ghost use Rattle.dap_wire.specs.Calls.{Outcome, Receives};
ghost use Rattle.dap_wire.specs.Link.{IsCarried};
ghost use Rattle.dap_wire.specs.declared.recv.Recv.TheVariants as recvs;
ghost use Rattle.lane_records.specs.declared.place.LaneFault.TheVariants as faults;
ghost use Rattle.lane_records.specs.Journal.{are_allowed, spell_all};
ghost use Rattle.lane_records.specs.Records.{record_};
ghost use Rattle.part_journal.specs.Came.{Came};
ghost use Rattle.part_journal.specs.Counts.{CountsStops};
ghost use Rattle.part_journal.specs.Part.{DeadWhere, Holds, IsOf};
ghost use Rattle.report_journal.specs.Log.{Leaves};
ghost use Rattle.helper_lane.specs.declared.taken.Taken.TheVariants as takens;
ghost use Rattle.helper_lane.specs.declared.work.HelperWork.{HelperWork};
ghost use Rattle.helper_lane.specs.Judged.{Checks};
ghost use Rattle.helper_lane.specs.Known.{IsKnown, KnowsAll};
ghost use Rattle.helper_lane.specs.Lane.{env, records, Begins, Grows, IsAwake, IsHalted, IsJournalOf, IsPlace, SameLane, StaysOf, Steps};
ghost use Rattle.helper_lane.specs.Refusals.{env_of};
ghost use Rattle.helper_lane.specs.Takes.{Takes};

use crate::judge::check_whole;
use crate::known::Known;
use crate::lookup::Lookup;
use crate::refusal::{CheckFault, TakeFault};
use crate::taken::Taken;
use crate::taking::received;
use dap_bytes::Bytes;
use dap_disk::Disk;
use dap_outside::Fates;
use dap_tasks::Tasks;
use dap_views::RequestView;
use dap_wire::{LinkEnd, Recv};
use lane_records::{
    Format, LaneFault, Place, Record, RecordsFault, read_records, records_are_bounded,
};
use part_journal::{MOST_STOPS, PartFault, PartJournal, PartRefused};
use report_journal::Log;
use std::alloc::{AllocError, Global};
use std::marker::Model;
use vdaf_api::Vdaf;

/// A lane of the helper: its journal, its tasks, its end of the link, and the requests in hand. It takes calls while it
/// is up. After a refusal that leaves it down only `restart` takes it further; `up`, `place`, `stopped`, `drops` and
/// `into_parts` stand open always.
#[derive(Drop)]
pub struct HelperLane<V: Vdaf, D: Disk, T: Fates> {
    journal: PartJournal<D, Record>,
    known: Known,
    tasks: Tasks<V>,
    place: Place,
    link: LinkEnd<T>,
    hand: Vec<Bytes>,
    up: bool,
    stopped: bool,
}

impl<V: Vdaf, D: Disk, T: Fates> Model for HelperLane<V, D, T> {
    ghost use Rattle.std.specs.Prelude.{IsTrue};
    ghost use Rattle.helper_lane.specs.Known.{IsKnown, KnowsAll};
    ghost use Rattle.helper_lane.specs.Lane.{HelperView, IsHelper};

    ghost Value = { HelperView D T };

    ghost view = { λ a. record {
      part = a.journal;
      tasks = a.tasks;
      place = a.place;
      link = a.link;
      hand = a.hand.items;
      up = a.up;
      stopped = a.stopped;
    } };

    ghost invariant = { λ a. IsHelper V.of_kind T.carried (record {
      part = a.journal;
      tasks = a.tasks;
      place = a.place;
      link = a.link;
      hand = a.hand.items;
      up = a.up;
      stopped = a.stopped;
    }) × IsKnown a.known a.journal.pages.records × (IsTrue a.up → KnowsAll a.known a.journal.pages.records) };
}

/// What a lane held, to be opened again.
#[derive(Drop)]
pub struct HelperParts<D: Disk, T: Fates> {
    /// The log, which takes blocks where the lane was up.
    pub log: Log<D>,
    /// Its end of the link.
    pub link: LinkEnd<T>,
}

/// Why an opening was refused, with the log and the end of the link.
#[derive(Drop)]
pub struct HelperRefused<D: Disk, T: Fates> {
    /// The log: its records are those that it had and the Opens that count, and an Open may be in hand.
    pub log: Log<D>,
    /// The lane's end of the link, as it was.
    pub link: LinkEnd<T>,
    /// Why.
    pub fault: LaneFault,
}

/// The fault of a lane whose journal has this one.
fn lane_fault(fault: PartFault) -> LaneFault
    ensures { (result ≡ faults.Stopped) ↔ (fault ≡ PartFault.Stopped) }
{
    match fault {
        PartFault::Stopped => LaneFault::Stopped,
        PartFault::NoMemory => LaneFault::NoMemory,
    }
}

impl<V: Vdaf, D: Disk, T: Fates> HelperLane<V, D, T> {
    /// Opens a lane over the journal that the log holds, and appends an Open; from the end of the link nothing was sent.
    /// Where it is refused the tasks are dropped.
    pub fn open(
        alloc: Global,
        log: Log<D>,
        place: Place,
        tasks: Tasks<V>,
        link: LinkEnd<T>,
    ) -> Result<HelperLane<V, D, T>, HelperRefused<D, T>>
        requires up { IsTrue log.up }
        requires place { IsPlace place }
        requires journal { (xs : List Record) × IsTrue (are_allowed xs) × (log.records ≡ spell_all xs)
            × IsJournalOf (env_of V.of_kind place tasks) xs }
        requires link { link.sent ≡ [] }

        ensures up { IfOk result (λ lane. IsTrue lane.up × (lane.stopped ≡ false)) }
        ensures given { IfOk result
            (λ lane. (lane.place ≡ place) × (lane.tasks ≡ tasks) × (lane.link ≡ link) × (lane.hand ≡ [])) }
        ensures begins { (xs : List Record) → IsTrue (are_allowed xs) → log.records ≡ spell_all xs →
            IfOk result (λ lane. Begins place xs lane.part) }
        ensures counts { IfOk result
            (λ lane. CountsStops D.downs D.deads ⊥ MOST_STOPS lane.part.left log.disk lane.part.disk) }

        ensures refused { (xs : List Record) → IsTrue (are_allowed xs) → log.records ≡ spell_all xs →
            IfErr result (λ e. StaysOf place xs e.log) }
        ensures given_back { IfErr result (λ e. (e.link ≡ link) × Leaves D.may_leave e.log) }
        ensures counts_err { IfErr result
            (λ e. (left : ℕ)
            × CountsStops D.downs D.deads (e.fault ≡ faults.Stopped) MOST_STOPS left log.disk e.log.disk) }
    {
        records_are_bounded();
        tasks.tasks_keep_their_ranges();
        let _up = log.up();
        let Ok(records) = records_in(alloc, &log) else {
            return Err(HelperRefused {
                log,
                link,
                fault: LaneFault::NoMemory,
            });
        };
        let opener = Record::HelperOpen(Format::Two, place.lanes, place.lane);
        let journal = match PartJournal::open(alloc, log, records, opener) {
            Ok(journal) => journal,
            Err(PartRefused { log, fault }) => {
                return Err(HelperRefused {
                    log,
                    link,
                    fault: lane_fault(fault),
                });
            }
        };
        let mut known = Known::new(alloc);
        match known.catch_up(journal.records()) {
            Ok(()) => {}
            Err(AllocError) => {
                return Err(HelperRefused {
                    log: journal.into_log(),
                    link,
                    fault: LaneFault::NoMemory,
                });
            }
        }
        Ok(HelperLane {
            journal,
            known,
            tasks,
            place,
            link,
            hand: Vec::new(alloc),
            up: true,
            stopped: false,
        })
    }

    /// Whether it takes calls. It takes no memory.
    pub fn up(&self) -> bool
        ensures up { result ≡ self.now.up }
        ensures awake { IsTrue self.now.up → IsAwake self.now.part self.now.stopped }
        ensures images { Holds D.may_leave record_.spell self.now.part }
    {
        let _back = self.journal.up();
        self.up
    }

    /// Its place. It takes no memory.
    pub fn place(&self) -> Place
        ensures place { result ≡ self.now.place }
        ensures ranges { IsPlace result }
    {
        self.place
    }

    /// Whether it is down and the call that left it down answered `Stopped`. It takes no memory.
    pub fn stopped(&self) -> bool
        ensures stopped { result ≡ self.now.stopped }
        ensures cause { IsTrue self.now.stopped → IsHalted self.now.part }
    {
        self.stopped
    }

    /// How often its end of the link was told Drop since its fates last gave another fate. It takes no memory.
    pub fn drops(&self) -> u64
        ensures { result ≡ self.now.link.drops }
    {
        self.link.drops()
    }

    /// Takes one message. A request that the lane doesn't refuse is in hand then, until it is answered or the lane
    /// restarts; every other is consumed, and nothing else changes.
    pub fn take(&mut self, alloc: Global) -> Result<Taken, TakeFault>
        requires { IsTrue self.old.up }

        // What the link said decides the answer.
        ensures takes { (got : Result Recv AllocError) × Outcome T.gives self.old.link self.new.link got
            × ((bytes : List ℕ) → got ≡ Ok (recvs.Message bytes) → IsCarried T.carried self.new.link bytes)
            × Takes (env V.of_kind self.old) (records self.old) got result self.old.hand self.new.hand }

        // The lane's tasks hold the work's.
        ensures held { (work : HelperWork) → result ≡ Ok (takens.Work work)
            → find (has_name work.task.name) self.old.tasks ≡ Some work.task }

        // On every answer.
        ensures link { Receives self.old.link self.new.link }
        ensures same { SameLane self.old self.new }
        ensures steps { Steps V.of_kind T.carried self.old self.new }
        ensures grows { Grows D.downs D.deads T.drops self.old self.new }
    {
        let got = self.link.recv();
        let known = Lookup::new(self.journal.records(), &self.known.index);
        received(alloc, self.place, &self.tasks, known, &mut self.hand, got)
    }

    /// Why the lane would refuse a request, whole as `take` would get it, however far its view was walked. It takes no
    /// memory.
    pub fn check(&self, request: RequestView<'_>) -> Result<(), CheckFault>
        requires { IsTrue self.now.up }
        ensures { Checks (env V.of_kind self.now) (records self.now) (request_of request.entry).message result }
    {
        let bytes = request.bytes();
        let known = Lookup::new(self.journal.records(), &self.known.index);
        check_whole(self.place, &self.tasks, known, bytes)
    }

    /// Restarts the disk until the journal is back with an Open behind it. No request is in hand then. After a refusal it
    /// is down, and a restart may be tried again.
    pub fn restart(&mut self, alloc: Global) -> Result<(), LaneFault>
        ensures up { OnOk result (IsTrue self.new.up) }
        ensures down { OnErr result (self.new.up ≡ false) }
        ensures stopped { IsTrue self.new.stopped ↔ (result ≡ Err faults.Stopped) }
        ensures hand { self.new.hand ≡ [] }
        ensures link { self.new.link ≡ self.old.link }
        ensures came { Came self.old.part.opener self.old.part.pages self.new.part.pages }
        ensures counts { CountsStops D.downs D.deads (result ≡ Err faults.Stopped)
            (max self.old.part.left 1) self.new.part.left self.old.part.disk self.new.part.disk }
        ensures dead { DeadWhere (result ≡ Err faults.Stopped) self.old.part self.new.part }
        ensures steps { Steps V.of_kind T.carried self.old self.new }
        ensures grows { Grows D.downs D.deads T.drops self.old self.new }
    {
        self.hand.clear();
        let back = self.journal.restart(alloc);
        let outcome = caught_up(back, self.journal.records(), &mut self.known);
        self.up = outcome.is_ok();
        self.stopped = is_stopped(&outcome);
        outcome
    }

    /// The log and the end of the link. It takes no memory.
    pub fn into_parts(self) -> HelperParts<D, T>
        ensures log { (result.log.disk ≡ self.part.disk) × IsOf record_.spell self.part.pages result.log
            × Leaves D.may_leave result.log }
        ensures link { result.link ≡ self.link }
        ensures up { IsTrue self.up → IsTrue result.log.up }
    {
        let HelperLane {
            journal,
            known: _,
            tasks: _,
            place: _,
            link,
            hand: _,
            up: _,
            stopped: _,
        } = self;
        HelperParts {
            log: journal.into_log(),
            link,
        }
    }
}

/// The records of a journal's log, which spells nothing else.
fn records_in<D: Disk>(alloc: Global, log: &Log<D>) -> Result<Vec<Record>, AllocError>
    requires { (xs : List Record) × IsTrue (are_allowed xs) × (log.now.records ≡ spell_all xs) }
    ensures { (xs : List Record) → IsTrue (are_allowed xs) → log.now.records ≡ spell_all xs
        → IfOk result (λ v. v.items ≡ xs) }
{
    match read_records(alloc, log.records()) {
        Ok(records) => Ok(records),
        Err(RecordsFault::NoMemory) => Err(AllocError),
        Err(RecordsFault::Form { entry: _, at: _ }) => unreachable!(),
    }
}

/// Enters the records behind a restart, if it came back.
fn caught_up(
    back: Result<(), PartFault>,
    records: &[Record],
    known: &mut Known,
) -> Result<(), LaneFault>
    requires { IsKnown known.old records.now }
    ensures ok { OnOk result ((back ≡ Ok tt) × KnowsAll known.new records.now) }
    ensures stopped { (result ≡ Err faults.Stopped) ↔ (back ≡ Err PartFault.Stopped) }
    ensures known { IsKnown known.new records.now }
{
    match back {
        Ok(()) => match known.catch_up(records) {
            Ok(()) => Ok(()),
            Err(AllocError) => Err(LaneFault::NoMemory),
        },
        Err(fault) => Err(lane_fault(fault)),
    }
}

/// Whether a call answered `Stopped`.
fn is_stopped(outcome: &Result<(), LaneFault>) -> bool
    ensures { IsTrue result ↔ (outcome.now ≡ Err faults.Stopped) }
{
    match outcome {
        Err(LaneFault::Stopped) => true,
        _ => false,
    }
}
