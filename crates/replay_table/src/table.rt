//! The table of finished reports.

ghost use Rattle.std.specs.Prelude.{◌≡◌, OnErr, OnOk};
ghost use Rattle.std.specs.FinMap as map;
ghost use Rattle.replay_table.specs.Answered.{Answers};

use dap_bytes::{Id, Name};
use dap_messages::JobNo;
use std::alloc::Global;
use std::collections::BTreeMap;
use std::marker::Model;
use thiserror::Error;

/// Why a report wasn't entered.
#[derive(Clone, Copy, Debug, PartialEq, Eq, Drop, Error)]
pub enum PutFault {
    /// The task's identifier is held, with this job.
    #[error("the report was finished before")]
    There { job: JobNo },
    /// There was no memory for it. It isn't held.
    #[error("no memory")]
    NoMemory,
}

/// The finished reports. Contracts see it as the finite map from a task's name and an identifier to a job.
#[derive(Debug, Drop)]
pub struct ReplayTable {
    jobs: BTreeMap<(Name, Id), JobNo>,
}

impl Model for ReplayTable {
    ghost use Rattle.std.specs.FinMap as map;
    ghost use Rattle.dap_messages.specs.declared.job.JobNo.{JobNo};
    ghost use Rattle.replay_table.specs.Reports.{report_order, table_code};

    ghost Value = { map.FinMap report_order JobNo };

    ghost coded = { table_code };

    ghost view = { λ a. map.from_entries a.jobs.entries };
}

impl ReplayTable {
    /// A table that holds nothing. It takes no memory.
    pub fn new(alloc: Global) -> Self
        ensures { result ≡ map.empty }
    {
        ReplayTable {
            jobs: BTreeMap::new(alloc),
        }
    }

    /// The job in which a task's report was finished. None where it isn't held. It takes no memory.
    pub fn find(&self, name: &Name, id: &Id) -> Option<JobNo>
        ensures { result ≡ map.get self.now (name.now, id.now) }
    {
        self.jobs.get(&(*name, *id)).copied()
    }

    /// Enters a task's report with its job. `There` with the first job where it is held, and nothing changes then.
    pub fn put(&mut self, name: &Name, id: &Id, job: JobNo) -> Result<(), PutFault>
        ensures held { Answers result (map.get self.old (name.now, id.now)) }
        ensures ok { OnOk result (self.new ≡ map.insert self.old (name.now, id.now) job) }
        ensures err { OnErr result (self.new ≡ self.old) }
    {
        if let Some(job) = self.find(name, id) {
            return Err(PutFault::There { job });
        }
        match self.jobs.insert((*name, *id), job) {
            Ok(_) => Ok(()),
            Err(_) => Err(PutFault::NoMemory),
        }
    }

    /// Takes a task's report out, with its job. None where it isn't held, and nothing changes then. It takes no memory.
    pub fn take_out(&mut self, name: &Name, id: &Id) -> Option<JobNo>
        ensures job { result ≡ map.get self.old (name.now, id.now) }
        ensures left { self.new ≡ map.remove self.old (name.now, id.now) }
    {
        self.jobs.remove(&(*name, *id))
    }
}
