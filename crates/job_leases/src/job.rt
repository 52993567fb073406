//! An open job.

use dap_messages::JobNo;

/// What an open job waits for. In `Combine` and `Finish` it waits for a worker, in the others for the helper.
#[derive(Clone, Copy, Debug, PartialEq, Eq)]
pub enum Stage {
    /// The helper's answer to the InitReq.
    AwaitInit,
    /// A worker that makes the prep messages.
    Combine,
    /// The helper's answer to the ContReq.
    AwaitCont,
    /// A worker that finishes the reports.
    Finish,
}

/// A worker's hold on a job, from the turn in which it was given on.
#[derive(Clone, Copy, Debug, PartialEq, Eq)]
pub struct Lease {
    /// The turn in which it was given.
    pub turn: u64,
    /// Who has it. It decides nothing.
    pub worker: u8,
}

/// An open job with its stage, and the lease that it was given last if none has ended it since.
#[derive(Clone, Copy, Debug, PartialEq, Eq)]
pub struct OpenJob {
    /// Its number.
    pub job: JobNo,
    /// What it waits for.
    pub stage: Stage,
    /// The lease, which stands for `Lease::TURNS` turns.
    pub lease: Option<Lease>,
}

impl Stage {
    ghost use Rattle.std.specs.Prelude.{◌≡◌};
    ghost use Rattle.job_leases.specs.Jobs.{is_continued, waits_for_worker};

    /// Whether a job at this stage waits for a worker.
    pub fn waits_for_worker(self) -> bool
        ensures { result ≡ waits_for_worker self }
    {
        match self {
            Stage::AwaitInit | Stage::AwaitCont => false,
            Stage::Combine | Stage::Finish => true,
        }
    }

    /// Whether a job at this stage is past its Continue.
    pub fn is_continued(self) -> bool
        ensures { result ≡ is_continued self }
    {
        match self {
            Stage::AwaitInit | Stage::Combine => false,
            Stage::AwaitCont | Stage::Finish => true,
        }
    }
}

impl Lease {
    /// For how many turns a lease stands.
    pub const TURNS: u64 = 16;
}

impl OpenJob {
    ghost use Rattle.std.specs.Prelude.{◌≡◌};
    ghost use Rattle.job_leases.specs.Jobs.{is_free};

    /// Whether a worker can take the job up in a turn: it waits for one, and no lease stands.
    pub fn is_free(&self, turn: u64) -> bool
        ensures { result ≡ is_free turn self.now }
    {
        self.stage.waits_for_worker()
            && !self
                .lease
                .is_some_and(|lease| turn.saturating_sub(lease.turn) < Lease::TURNS)
    }
}
