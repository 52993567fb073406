//! The table of open jobs.

ghost use Rattle.std.specs.Prelude.{◌≡◌, ◌≢◌, ◌++◌, ◌∷◌, [], map, position, Some, None, OnOk, OnErr, IfOk, IfErr, IfSome, IfNone};
ghost use Rattle.job_leases.specs.Jobs.{continued, first_free, is_free, is_job, leased, moved, newly_open, stage_of, unleased};

use crate::job::{Lease, OpenJob, Stage};
use dap_messages::JobNo;
use std::alloc::{AllocError, Global};
use std::marker::Model;

/// A job isn't at the stage from which it was to be moved: the stage at which it stands, or none where it isn't open.
#[derive(Clone, Copy, Debug, PartialEq, Eq)]
pub struct Stale {
    /// Where it stands.
    pub stands: Option<Stage>,
}

/// The open jobs of a lane. Contracts see them as their list, the oldest first.
#[derive(Debug, Drop)]
pub struct Leases {
    jobs: Vec<OpenJob>,
}

impl Model for Leases {
    ghost use Rattle.std.specs.Prelude.{List};
    ghost use Rattle.job_leases.specs.declared.job.OpenJob.{OpenJob};
    ghost use Rattle.job_leases.specs.Jobs.{AreDistinct};

    ghost Value = { List OpenJob };

    ghost view = { λ a. a.jobs.items };

    ghost invariant = { λ a. AreDistinct a.jobs.items };
}

impl Leases {
    /// No open jobs. It takes no memory.
    pub fn new(alloc: Global) -> Self
        ensures { result ≡ [] }
    {
        Leases {
            jobs: Vec::new(alloc),
        }
    }

    /// The open jobs, the oldest first. It takes no memory.
    pub fn jobs(&self) -> &[OpenJob]
        ensures { result.now ≡ self.now }
    {
        &self.jobs
    }

    /// Opens a job, which then waits for the helper's answer to its first request. Its number is new.
    pub fn add(&mut self, job: JobNo) -> Result<(), AllocError>
        requires { stage_of job self.old ≡ None }
        ensures ok { OnOk result (self.new ≡ self.old ++ newly_open job ∷ []) }
        ensures err { OnErr result (self.new ≡ self.old) }
    {
        self.jobs.push(OpenJob {
            job,
            stage: Stage::AwaitInit,
            lease: None,
        })?;
        Ok(())
    }

    /// Gives a worker the oldest job that waits for one and has no standing lease. None where there is no such job.
    /// A lease stands for `Lease::TURNS` turns from its own on. It takes no memory.
    pub fn lease(&mut self, turn: u64, worker: u8) -> Option<JobNo>
        ensures oldest { result ≡ first_free turn self.old }
        ensures given { IfSome result (λ job. self.new
            ≡ leased job (record { turn = turn; worker = worker }) self.old) }
        ensures none { IfNone result (self.new ≡ self.old) }
    {
        let at = place_of_free(&self.jobs, turn)?;
        let open = &mut self.jobs[at];
        open.lease = Some(Lease { turn, worker });
        Some(open.job)
    }

    /// Moves a job from one stage to another, or closes it where there is no other, and ends its lease.
    /// `Stale` where it doesn't stand at the first stage; nothing changes then. It takes no memory.
    pub fn submit(&mut self, job: JobNo, from: Stage, to: Option<Stage>) -> Result<(), Stale>
        ensures ok { OnOk result ((stage_of job self.old ≡ Some from) × (self.new ≡ moved job to self.old)) }
        ensures stands { IfErr result (λ fault. fault.stands ≡ stage_of job self.old) }
        ensures stale { OnErr result (stage_of job self.old ≢ Some from) }
        ensures err { OnErr result (self.new ≡ self.old) }
    {
        let at = place_at(&self.jobs, job, from)?;
        match to {
            Some(stage) => {
                self.jobs[at] = OpenJob {
                    job,
                    stage,
                    lease: None,
                };
            }
            None => {
                self.jobs.remove(at);
            }
        }
        Ok(())
    }

    /// Ends every lease. It takes no memory.
    pub fn end_all(&mut self)
        ensures { self.new ≡ map unleased self.old }
    {
        for open in self.jobs.iter_mut() {
            open.lease = None;
        }
    }

    /// Closes the jobs that aren't past their Continue. Each other one then waits for the helper's answer to its ContReq,
    /// without a lease, as after a restart, which knows of a job what is written. It takes no memory.
    pub fn keep_continued(&mut self)
        ensures { self.new ≡ continued self.old }
    {
        self.jobs.retain(|open| open.stage.is_continued());
        for open in self.jobs.iter_mut() {
            *open = OpenJob {
                job: open.job,
                stage: Stage::AwaitCont,
                lease: None,
            };
        }
    }
}

/// Where the first job is that a worker can take up.
fn place_of_free(jobs: &[OpenJob], turn: u64) -> Option<usize>
    ensures { result ≡ position (is_free turn) jobs.now }
{
    jobs.iter().position(|open| open.is_free(turn))
}

/// Where a job is that stands at a stage.
fn place_at(jobs: &[OpenJob], job: JobNo, from: Stage) -> Result<usize, Stale>
    ensures place { IfOk result (λ at. position (is_job job) jobs.now ≡ Some at) }
    ensures ok { OnOk result (stage_of job jobs.now ≡ Some from) }
    ensures stands { IfErr result (λ fault. fault.stands ≡ stage_of job jobs.now) }
    ensures stale { OnErr result (stage_of job jobs.now ≢ Some from) }
{
    let Some(at) = place_of(jobs, job) else {
        return Err(Stale { stands: None });
    };
    let stage = jobs[at].stage;
    if stage == from {
        Ok(at)
    } else {
        Err(Stale {
            stands: Some(stage),
        })
    }
}

/// Where a job is.
fn place_of(jobs: &[OpenJob], job: JobNo) -> Option<usize>
    ensures { result ≡ position (is_job job) jobs.now }
{
    jobs.iter().position(|open| job == open.job)
}
