//! The block that judges uploads.

ghost use Rattle.std.specs.Prelude.{◌≡◌, ◌++◌, ◌∷◌, [], List, map, IsTrue, IfSome, IfOk, OnOk, OnErr, Some};
ghost use Rattle.dap_messages.specs.Messages.{report};
ghost use Rattle.dap_messages.specs.declared.report.Report as told;
ghost use Rattle.dap_wire.specs.declared.upload.Upload as upload;
ghost use Rattle.lane_records.specs.declared.record.Record.{Record};
ghost use Rattle.lane_records.specs.declared.record.Record.TheVariants.{Accept};
ghost use Rattle.legal_journals.specs.History.{Mem};
ghost use Rattle.leader_lane.specs.Catalog.{Lists};
ghost use Rattle.leader_lane.specs.Judge.{Env, report_of, added_by, cause_by};
ghost use Rattle.leader_lane.specs.Ready.{Ready};
ghost use Rattle.leader_lane.specs.Sound.{IsPlace, Sound, opener_of};

use crate::catalog::Catalog;
use crate::judge::judge_report;
use dap_messages::{ReadFault, Report, forms_are_bounded, read_report};
use dap_tasks::{Answer, Cause, Judged, Tasks};
use dap_wire::Upload;
use lane_records::{Place, Record};
use std::alloc::{AllocError, Global};
use vdaf_api::Vdaf;

/// The Accepts of the uploads that are accepted, and what each upload is told.
#[derive(Drop)]
pub(crate) struct Block {
    pub(crate) records: Vec<Record>,
    pub(crate) answers: Vec<Answer>,
}

/// The report that an upload's bytes are.
fn read(alloc: Global, u: &Upload) -> Result<Option<Report>, AllocError>
    ensures found { IfOk result (λ o. o ≡ report_of u.now) }
    ensures spelled { IfOk result (λ o. IfSome o (λ r. IsTrue (report.allowed r) × (u.now.report ≡ report.spell r))) }
{
    match read_report(alloc, u.report.as_slice()) {
        Ok(r) => Ok(Some(r)),
        Err(ReadFault::Form { at: _ }) => Ok(None),
        Err(ReadFault::NoMemory) => Err(AllocError {}),
    }
}

fn cause_of(judged: Judged) -> Option<Cause>
    ensures { result ≡ cause_by judged }
{
    match judged {
        Judged::Again | Judged::Added => None,
        Judged::Barred(why) => Some(why),
    }
}

impl Block {
    /// That of no upload. It takes no memory.
    pub(crate) fn new(alloc: Global) -> Self
        ensures records { result.records.items ≡ [] }
        ensures answers { result.answers.items ≡ [] }
    {
        Block {
            records: Vec::new(alloc),
            answers: Vec::new(alloc),
        }
    }

    /// Adds the report's Accept.
    fn accept(&mut self, catalog: &mut Catalog, r: Report) -> Result<(), AllocError>
        ensures records { OnOk result (self.new.records.items ≡ self.old.records.items ++ Accept r ∷ []) }
        ensures answers { self.new.answers ≡ self.old.answers }
        ensures lists { OnOk result ((records : List Record) → Lists catalog.old records self.old.records.items
            → Lists catalog.new records self.new.records.items) }
        ensures err { OnErr result ((records : List Record) → Lists catalog.old records self.old.records.items
            → (block : List Record) × Lists catalog.new records block) }
    {
        let name = r.name;
        let id = r.id;
        let x = Record::Accept(r);
        catalog.enter((name, id), &x)?;
        self.records.push(x)?;
        Ok(())
    }

    /// Adds the report's Accept, where it is added.
    fn add(&mut self, catalog: &mut Catalog, judged: Judged, r: Report) -> Result<(), AllocError>
        ensures records { OnOk result (self.new.records.items
            ≡ self.old.records.items ++ map Accept (added_by judged (Some r))) }
        ensures answers { self.new.answers ≡ self.old.answers }
        ensures lists { OnOk result ((records : List Record) → Lists catalog.old records self.old.records.items
            → Lists catalog.new records self.new.records.items) }
        ensures err { OnErr result ((records : List Record) → Lists catalog.old records self.old.records.items
            → (block : List Record) × Lists catalog.new records block) }
    {
        match judged {
            Judged::Added => self.accept(catalog, r),
            Judged::Again | Judged::Barred(_) => Ok(()),
        }
    }

    /// Judges one upload more.
    fn judge<V: Vdaf>(
        &mut self,
        alloc: Global,
        place: Place,
        tasks: &Tasks<V>,
        records: &[Record],
        catalog: &mut Catalog,
        u: &Upload,
    ) -> Result<(), AllocError>
        requires place { IsPlace place }
        requires sound { Sound place (records.now ++ self.old.records.items) }
        requires opened { Mem (opener_of place) records.now }
        requires lists { Lists catalog.old records.now self.old.records.items }
        ensures ready { OnOk result ((us : List upload.Upload)
            → Ready (record { tasks = tasks.now; place = place }) records.now self.old.records.items
            self.old.answers.items us
            → Ready (record { tasks = tasks.now; place = place }) records.now self.new.records.items
            self.new.answers.items (us ++ u.now ∷ [])) }
        ensures lists { OnOk result (Lists catalog.new records.now self.new.records.items) }
        ensures err { OnErr result ((block : List Record) × Lists catalog.new records.now block) }
    {
        forms_are_bounded();
        let Some(r) = read(alloc, u)? else {
            self.answers.push(Answer {
                line: u.line,
                cause: Some(Cause::Form),
            })?;
            return Ok(());
        };
        let judged = judge_report(place, tasks, records, &self.records, catalog, u, &r);
        self.answers.push(Answer {
            line: u.line,
            cause: cause_of(judged),
        })?;
        self.add(catalog, judged, r)
    }
}

/// Judges these uploads one after another.
fn judge_each<V: Vdaf>(
    alloc: Global,
    place: Place,
    tasks: &Tasks<V>,
    records: &[Record],
    catalog: &mut Catalog,
    us: &[Upload],
) -> Result<Block, AllocError>
    requires place { IsPlace place }
    requires sound { Sound place records.now }
    requires opened { Mem (opener_of place) records.now }
    requires lists { Lists catalog.old records.now [] }
    ensures ready { IfOk result (λ b. Ready (record { tasks = tasks.now; place = place }) records.now b.records.items
        b.answers.items us.now) }
    ensures lists { IfOk result (λ b. Lists catalog.new records.now b.records.items) }
    ensures err { OnErr result ((block : List Record) × Lists catalog.new records.now block) }
{
    let mut block = Block::new(alloc);
    for u in us {
        block.judge(alloc, place, tasks, records, catalog, u)?;
    }
    Ok(block)
}

/// The block that judges these uploads, and what each is told. Where memory runs out the catalog is that of the records
/// alone, but for some of the newest.
pub(crate) fn judge_all<V: Vdaf>(
    alloc: Global,
    place: Place,
    tasks: &Tasks<V>,
    records: &[Record],
    catalog: &mut Catalog,
    us: &[Upload],
) -> Result<Block, AllocError>
    requires place { IsPlace place }
    requires sound { Sound place records.now }
    requires opened { Mem (opener_of place) records.now }
    requires lists { (seen more : List Record) × (records.now ≡ seen ++ more) × Lists catalog.old seen [] }
    ensures ready { IfOk result (λ b. Ready (record { tasks = tasks.now; place = place }) records.now b.records.items
        b.answers.items us.now) }
    ensures lists { IfOk result (λ b. Lists catalog.new records.now b.records.items) }
    ensures err { OnErr result ((seen more : List Record) → Lists catalog.old seen [] → records.now ≡ seen ++ more
        → (some rest : List Record) × (more ≡ some ++ rest) × Lists catalog.new (seen ++ some) []) }
{
    catalog.catch_up(records)?;
    match judge_each(alloc, place, tasks, records, catalog, us) {
        Ok(block) => Ok(block),
        Err(fault) => {
            catalog.settle(Some(false));
            Err(fault)
        }
    }
}
