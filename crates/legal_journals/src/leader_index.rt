//! The index of a leader lane's records.

ghost use Rattle.std.specs.List.{count_by};
ghost use Rattle.legal_journals.specs.HistoryTests.{is_open};
ghost use Rattle.std.specs.Prelude.{◌≡◌, ◌++◌, ◌∷◌, [], List, length, OnErr, OnOk};
ghost use Rattle.dap_messages.specs.declared.report.Report.{Report};
ghost use Rattle.lane_records.specs.declared.record.Record.{Record};
ghost use Rattle.lane_records.specs.declared.record.Record.TheVariants.{Accept};
ghost use Rattle.legal_journals.specs.LaneTests.{accepts, continues_report, continues_job, finishes_job, leader_closes};
ghost use Rattle.legal_journals.specs.LeaderIndexed.{LeaderIndexes};
ghost use Rattle.legal_journals.specs.Places.{place_of};

use crate::opens::Opens;
use crate::reports::{JobKey, enter_all, job_key, leave_all};
use crate::table::Table;
use dap_bytes::{Id, Name};
use dap_messages::JobNo;
use lane_records::Record;
use std::alloc::{AllocError, Global};

/// What is looked up among the records of a leader lane's journal.
#[derive(Drop)]
pub struct LeaderIndex {
    pub(crate) opens: Opens,
    accepted: Table<(Name, Id), usize>,
    continued: Table<(Name, Id), usize>,
    jobs: Table<JobKey, usize>,
    finished: Table<JobKey, usize>,
    closed: Table<(Name, u64), usize>,
}

impl LeaderIndex {
    /// The index of no record. It takes no memory.
    pub fn new(alloc: Global) -> Self
        ensures { LeaderIndexes result [] }
    {
        LeaderIndex {
            opens: Opens::new(),
            accepted: Table::new(alloc),
            continued: Table::new(alloc),
            jobs: Table::new(alloc),
            finished: Table::new(alloc),
            closed: Table::new(alloc),
        }
    }

    /// One record more, the newest.
    pub fn push(&mut self, x: &Record) -> Result<(), AllocError>
        ensures ok { OnOk result ((records : List Record) → LeaderIndexes self.old records →
            LeaderIndexes self.new (records ++ x.now ∷ [])) }
        ensures err { OnErr result
            ((records : List Record) → LeaderIndexes self.old records → LeaderIndexes self.new records) }
    {
        let place = self.opens.count;
        let Some(opens) = self.opens.with(x) else {
            return Err(AllocError {});
        };
        match x {
            Record::Accept(report) => self.accepted.enter((report.name, report.id), place)?,
            Record::Continue(name, job, steps) => {
                enter_all(&mut self.continued, name, steps.as_slice(), place)?;
                if self.jobs.enter(job_key(job), place).is_err() {
                    leave_all(&mut self.continued, name, steps.as_slice(), place);
                    return Err(AllocError {});
                }
            }
            Record::Finish(job, _) => self.finished.enter(job_key(job), place)?,
            Record::LeaderClose(name, start, _) => self.closed.enter((*name, *start), place)?,
            _ => {}
        }
        self.opens = opens;
        Ok(())
    }

    /// Without the newest record, which this is. It takes no memory.
    pub fn take_back(&mut self, x: &Record)
        ensures { (records : List Record) → LeaderIndexes self.old (records ++ x.now ∷ [])
            → LeaderIndexes self.new records }
    {
        self.opens = self.opens.without(x);
        let place = self.opens.count;
        match x {
            Record::Accept(report) => self.accepted.leave_at(&(report.name, report.id), place),
            Record::Continue(name, job, steps) => {
                leave_all(&mut self.continued, name, steps.as_slice(), place);
                self.jobs.leave_at(&job_key(job), place);
            }
            Record::Finish(job, _) => self.finished.leave_at(&job_key(job), place),
            Record::LeaderClose(name, start, _) => self.closed.leave_at(&(*name, *start), place),
            _ => {}
        }
    }

    /// Without the newest record, which is the Accept of a report of this name and identifier. It takes no memory.
    pub fn take_back_accept(&mut self, name: &Name, id: &Id)
        ensures { (records : List Record) (r : Report) → r.name ≡ name.now → r.id ≡ id.now → LeaderIndexes self.old (records ++ Accept r ∷ []) → LeaderIndexes self.new records }
    {
        self.opens = self.opens.without_accept();
        self.accepted.leave_at(&(*name, *id), self.opens.count);
    }

    /// The place of the report's Accept. It takes no memory.
    pub fn accepted(&self, name: &Name, id: &Id) -> Option<usize>
        ensures { (records : List Record) → LeaderIndexes self.now records →
            result ≡ place_of (accepts name.now id.now) records }
    {
        self.accepted.get(&(*name, *id))
    }

    /// The place of the Continue in which the report stands. It takes no memory.
    pub fn continued(&self, name: &Name, id: &Id) -> Option<usize>
        ensures { (records : List Record) → LeaderIndexes self.now records →
            result ≡ place_of (continues_report name.now id.now) records }
    {
        self.continued.get(&(*name, *id))
    }

    /// The place of the job's Continue. It takes no memory.
    pub fn job(&self, job: &JobNo) -> Option<usize>
        ensures { (records : List Record) → LeaderIndexes self.now records
            → result ≡ place_of (continues_job job.now) records }
    {
        self.jobs.get(&job_key(job))
    }

    /// The place of the job's Finish. It takes no memory.
    pub fn finished(&self, job: &JobNo) -> Option<usize>
        ensures { (records : List Record) → LeaderIndexes self.now records
            → result ≡ place_of (finishes_job job.now) records }
    {
        self.finished.get(&job_key(job))
    }

    /// The place of the batch's Close. It takes no memory.
    pub fn closed(&self, name: &Name, start: u64) -> Option<usize>
        ensures { (records : List Record) → LeaderIndexes self.now records →
            result ≡ place_of (leader_closes name.now start) records }
    {
        self.closed.get(&(*name, start))
    }

    /// How many records it has. It takes no memory.
    pub fn len(&self) -> usize
        ensures { (records : List Record) → LeaderIndexes self.now records → result ≡ length records }
    {
        self.opens.count
    }

    /// How many Opens there are, which is the number of the lane's incarnation. It takes no memory.
    pub fn incarnation(&self) -> usize
        ensures { (records : List Record) → LeaderIndexes self.now records → result ≡ count_by is_open records }
    {
        self.opens.opens
    }
}
