//! The index of a helper lane's records.

ghost use Rattle.std.specs.List.{count_by};
ghost use Rattle.legal_journals.specs.HistoryTests.{is_open};
ghost use Rattle.std.specs.Prelude.{◌≡◌, ◌++◌, ◌∷◌, [], List, OnErr, OnOk};
ghost use Rattle.lane_records.specs.declared.record.Record.{Record};
ghost use Rattle.legal_journals.specs.History.{first};
ghost use Rattle.legal_journals.specs.LaneTests.{starts_job, commits_job, helper_closes};
ghost use Rattle.legal_journals.specs.Finished.{name_under, finished_place};
ghost use Rattle.legal_journals.specs.HelperIndexed.{HelperIndexes};
ghost use Rattle.legal_journals.specs.Places.{place_of};

use crate::jobs::{enter_finished, enter_start, leave_finished, leave_start};
use crate::opens::Opens;
use crate::reports::{JobKey, job_key};
use crate::table::Table;
use dap_bytes::{Id, Name};
use dap_messages::JobNo;
use lane_records::Record;
use std::alloc::{AllocError, Global};

/// What is looked up among the records of a helper lane's journal.
#[derive(Drop)]
pub struct HelperIndex {
    pub(crate) opens: Opens,
    started: Table<JobKey, usize>,
    names: Table<JobKey, Name>,
    committed: Table<JobKey, usize>,
    finished: Table<(Name, Id), usize>,
    closed: Table<(Name, u64), usize>,
}

impl HelperIndex {
    /// The index of no record. It takes no memory.
    pub fn new(alloc: Global) -> Self
        ensures { HelperIndexes result [] }
    {
        HelperIndex {
            opens: Opens::new(),
            started: Table::new(alloc),
            names: Table::new(alloc),
            committed: Table::new(alloc),
            finished: Table::new(alloc),
            closed: Table::new(alloc),
        }
    }

    /// One record more, the newest.
    pub fn push(&mut self, x: &Record) -> Result<(), AllocError>
        ensures ok { OnOk result ((records : List Record) → HelperIndexes self.old records →
            HelperIndexes self.new (records ++ x.now ∷ [])) }
        ensures err { OnErr result
            ((records : List Record) → HelperIndexes self.old records → HelperIndexes self.new records) }
    {
        let Some(opens) = self.opens.with(x) else {
            return Err(AllocError {});
        };
        let place = self.opens.count;
        match x {
            Record::Start(job, name, _) => {
                enter_start(
                    &mut self.started,
                    &mut self.names,
                    job_key(job),
                    name,
                    place,
                )?
            }
            Record::Commit(job, outs) => {
                let key = job_key(job);
                let name = self.names.get(&key);
                enter_finished(&mut self.finished, &name, outs.as_slice(), place)?;
                if self.committed.enter(key, place).is_err() {
                    leave_finished(&mut self.finished, &name, outs.as_slice(), place);
                    return Err(AllocError {});
                }
            }
            Record::HelperClose(name, start, _) => self.closed.enter((*name, *start), place)?,
            _ => {}
        }
        self.opens = opens;
        Ok(())
    }

    /// Without the newest record, which this is. It takes no memory.
    pub fn take_back(&mut self, x: &Record)
        ensures { (records : List Record) → HelperIndexes self.old (records ++ x.now ∷ [])
            → HelperIndexes self.new records }
    {
        self.opens = self.opens.without(x);
        let place = self.opens.count;
        match x {
            Record::Start(job, _, _) => {
                leave_start(&mut self.started, &mut self.names, job_key(job), place);
            }
            Record::Commit(job, outs) => {
                let key = job_key(job);
                let name = self.names.get(&key);
                leave_finished(&mut self.finished, &name, outs.as_slice(), place);
                self.committed.leave_at(&key, place);
            }
            Record::HelperClose(name, start, _) => self.closed.leave_at(&(*name, *start), place),
            _ => {}
        }
    }

    /// The place of the job's Start. It takes no memory.
    pub fn started(&self, job: &JobNo) -> Option<usize>
        ensures { (records : List Record) → HelperIndexes self.now records
            → result ≡ place_of (starts_job job.now) records }
    {
        self.started.get(&job_key(job))
    }

    /// The name of the job's task. It takes no memory.
    pub fn name(&self, job: &JobNo) -> Option<Name>
        ensures { (records : List Record) → HelperIndexes self.now records
            → result ≡ first (name_under job.now) records }
    {
        self.names.get(&job_key(job))
    }

    /// The place of the job's Commit. It takes no memory.
    pub fn committed(&self, job: &JobNo) -> Option<usize>
        ensures { (records : List Record) → HelperIndexes self.now records
            → result ≡ place_of (commits_job job.now) records }
    {
        self.committed.get(&job_key(job))
    }

    /// The place of the Commit that finished the report. It takes no memory.
    pub fn finished(&self, name: &Name, id: &Id) -> Option<usize>
        ensures { (records : List Record) → HelperIndexes self.now records →
            result ≡ finished_place (name.now, id.now) records }
    {
        self.finished.get(&(*name, *id))
    }

    /// The place of the batch's Close. It takes no memory.
    pub fn closed(&self, name: &Name, start: u64) -> Option<usize>
        ensures { (records : List Record) → HelperIndexes self.now records →
            result ≡ place_of (helper_closes name.now start) records }
    {
        self.closed.get(&(*name, start))
    }

    /// How many Opens there are, which is the number of the lane's incarnation. It takes no memory.
    pub fn incarnation(&self) -> usize
        ensures { (records : List Record) → HelperIndexes self.now records → result ≡ count_by is_open records }
    {
        self.opens.opens
    }
}
