//! What is looked up in a lane's records.

ghost use Rattle.std.specs.Prelude.{◌≡◌, ℕ, reverse};
ghost use Rattle.std.specs.Option.{option_map};
ghost use Rattle.dap_bytes.specs.declared.node.Node.TheVariants.{Helper};
ghost use Rattle.dap_bytes.specs.declared.part.Part.TheVariants.{Lane};
ghost use Rattle.dap_messages.specs.Jobs.{is_same_job};
ghost use Rattle.legal_journals.specs.HelperIndexed.{HelperIndexes};
ghost use Rattle.legal_journals.specs.History.{first};
ghost use Rattle.legal_journals.specs.Legal.{IsLegalJournal};
ghost use Rattle.helper_lane.specs.Refusals.{started};
ghost use Rattle.helper_lane.specs.Reply.{start_if};
ghost use Rattle.helper_lane.specs.Starts.{StartsOnce};

use dap_bytes::Name;
use dap_messages::{Half, Items, JobNo};
use lane_records::Record;
use legal_journals::HelperIndex;

/// The records of a lane, the oldest first, and their index.
#[derive(Clone, Copy)]
pub(crate) struct Lookup<'a> {
    records: &'a [Record],
    index: &'a HelperIndex,
    ghost turned: { StartsOnce records.now },
    ghost indexed: { HelperIndexes index.now records.now },
}

impl<'a> Lookup<'a> {
    /// The legal journal of a lane, and its index.
    pub(crate) fn new(records: &'a [Record], index: &'a HelperIndex) -> Lookup<'a>
        requires legal { (lane : ℕ) × IsLegalJournal Helper (Lane lane) records.now }
        requires indexed { HelperIndexes index.now records.now }
        ensures { result.records.now ≡ records.now }
    {
        Lookup { records, index }
    }

    /// What the job's Start says: its name, and what the helper got of each report.
    pub(crate) fn start_of(&self, job: &JobNo) -> Option<(&'a Name, &'a Items<Half>)>
        ensures { option_map (λ s. started s.0.now s.1.now) result
            ≡ first (start_if job.now) (reverse self.now.records.now) }
    {
        let Some(place) = self.index.started(job) else {
            return None;
        };
        let Some(x) = self.records.get(place) else {
            return None;
        };
        start_if(job, x)
    }
}

/// What the record says, if it is the job's Start.
fn start_if<'a>(job: &JobNo, x: &'a Record) -> Option<(&'a Name, &'a Items<Half>)>
    ensures { option_map (λ s. started s.0.now s.1.now) result ≡ start_if job.now x.now }
{
    match x {
        Record::Start(other, name, halves) if same_job(other, job) => Some((name, halves)),
        _ => None,
    }
}

/// Whether the two numbers are one job's.
fn same_job(one: &JobNo, other: &JobNo) -> bool
    ensures { result ≡ is_same_job one.now other.now }
{
    one.lane == other.lane && one.incarnation == other.incarnation && one.counter == other.counter
}
