//! What the table promises over several calls.

ghost use Rattle.std.specs.Prelude.{◌≢◌, ◌+◌, ◌<◌, ℕ, List, Some};
ghost use Rattle.dap_messages.specs.declared.job.JobNo.{JobNo};
ghost use Rattle.job_leases.specs.declared.job.OpenJob.{OpenJob};
ghost use Rattle.job_leases.specs.declared.job.TheConstants.Lease.{TURNS};
ghost use Rattle.job_leases.specs.Jobs.{first_free, leased};

/// A law: a job that was given in a turn is not the next one given in any turn before its lease's end.
pub fn a_leased_job_is_not_given_again()
    ensures { (turn later worker : ℕ) (job : JobNo) (jobs : List OpenJob) → later < turn + TURNS
        → first_free later (leased job (record { turn = turn; worker = worker }) jobs) ≢ Some job }
{}
