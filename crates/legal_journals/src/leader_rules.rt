//! Which record may follow which in the journal of a leader's lane, by its index.

ghost use Rattle.std.specs.Prelude.{◌≡◌};
ghost use Rattle.std.specs.List.{list_any, list_all};
ghost use Rattle.dap_bytes.specs.declared.node.Node.TheVariants.{Leader};
ghost use Rattle.dap_bytes.specs.declared.part.Part.TheVariants.{Lane};
ghost use Rattle.legal_journals.specs.Legal.{IsLegalJournal};
ghost use Rattle.legal_journals.specs.LaneTests.{accepts, continues_report, continues_job, finishes_job, leader_closes, continues_with, is_waiting, may_continue, leader_lane_may};
ghost use Rattle.legal_journals.specs.Places.{HaveOneNumber};
ghost use Rattle.legal_journals.specs.LeaderIndexed.{LeaderIndexes, continue_has};

use crate::items::same_ids;
use crate::leader_index::LeaderIndex;
use crate::opens::Opens;
use crate::walk::PartIndex;
use dap_bytes::{Id, Name};
use dap_messages::{JobNo, Step, Tagged};
use lane_records::{Outcome, Record};
use std::alloc::AllocError;

impl PartIndex for LeaderIndex {
    ghost use Rattle.dap_bytes.specs.declared.node.Node.TheVariants.{Leader};
    ghost use Rattle.dap_bytes.specs.declared.part.Part.TheVariants.{Lane};
    ghost use Rattle.legal_journals.specs.LeaderIndexed.{LeaderIndexes};

    ghost node = { Leader };

    ghost part = { Lane };

    ghost indexes = { LeaderIndexes };

    fn opens(&self) -> Opens {
        self.opens
    }

    fn part_may(&self, lane: u8, x: &Record, earlier: &[Record]) -> bool {
        leader_lane_may(lane, x, self, earlier)
    }

    fn add(&mut self, x: &Record) -> Result<(), AllocError> {
        self.push(x)
    }
}

/// Whether the record may follow those before it, which are legal and which the index is of.
fn leader_lane_may(lane: u8, x: &Record, index: &LeaderIndex, earlier: &[Record]) -> bool
    requires indexed { LeaderIndexes index.now earlier.now }
    requires legal { IsLegalJournal Leader (Lane lane) earlier.now }
    requires numbered { HaveOneNumber earlier.now }
    ensures { result ≡ leader_lane_may lane x.now earlier.now }
{
    match x {
        Record::LeaderOpen(format, lanes, own) => {
            index.opens.may_open(*format, *lanes, earlier) && *own == lane && lane < *lanes
        }
        Record::Accept(report) => {
            index.opens.is_of_lane(lane, &report.id, earlier)
                && !accepted(&report.name, &report.id, index, earlier)
        }
        Record::Continue(name, job, steps) => {
            may_continue(lane, name, job, steps.as_slice(), index, earlier)
        }
        Record::Finish(job, outcomes) => {
            continued_with(lane, job, outcomes.as_slice(), index, earlier)
                && !finished(job, index, earlier)
        }
        Record::LeaderClose(name, start, _) => !closed(name, *start, index, earlier),
        _ => false,
    }
}

/// Whether a Continue may follow: of a new job of this lane and incarnation, with reports that wait for one.
fn may_continue(
    lane: u8,
    name: &Name,
    job: &JobNo,
    steps: &[Tagged<Step>],
    index: &LeaderIndex,
    earlier: &[Record],
) -> bool
    requires { LeaderIndexes index.now earlier.now }
    ensures { result ≡ may_continue lane name.now job.now steps.now earlier.now }
{
    job.lane == lane
        && job.incarnation == index.incarnation() as u64
        && !continued(job, index, earlier)
        && are_waiting(name, steps, index, earlier)
}

/// Whether each item's report was accepted and not taken into a job.
fn are_waiting(name: &Name, steps: &[Tagged<Step>], index: &LeaderIndex, earlier: &[Record]) -> bool
    requires { LeaderIndexes index.now earlier.now }
    ensures { result ≡ list_all (is_waiting name.now earlier.now) steps.now }
{
    for x in steps {
        if !is_waiting(name, x, index, earlier) {
            return false;
        }
    }
    true
}

/// Whether the item's report was accepted and not taken into a job.
fn is_waiting(name: &Name, x: &Tagged<Step>, index: &LeaderIndex, earlier: &[Record]) -> bool
    requires { LeaderIndexes index.now earlier.now }
    ensures { result ≡ is_waiting name.now earlier.now x.now }
{
    accepted(name, &x.id, index, earlier) && !report_continued(name, &x.id, index, earlier)
}

/// Whether the job has its Continue, with the identifiers of these outcomes.
fn continued_with(
    lane: u8,
    job: &JobNo,
    outcomes: &[Tagged<Outcome>],
    index: &LeaderIndex,
    earlier: &[Record],
) -> bool
    requires indexed { LeaderIndexes index.now earlier.now }
    requires legal { IsLegalJournal Leader (Lane lane) earlier.now }
    ensures { result ≡ list_any (continues_with job.now outcomes.now) earlier.now }
{
    let Some(place) = index.job(job) else {
        return false;
    };
    let Some(x) = earlier.get(place) else {
        return false;
    };
    continue_has(outcomes, x)
}

/// Whether the record is a Continue with the identifiers of these outcomes.
fn continue_has(outcomes: &[Tagged<Outcome>], x: &Record) -> bool
    ensures { result ≡ continue_has outcomes.now x.now }
{
    match x {
        Record::Continue(_, _, steps) => same_ids(steps.as_slice(), outcomes),
        _ => false,
    }
}

fn accepted(name: &Name, id: &Id, index: &LeaderIndex, earlier: &[Record]) -> bool
    requires { LeaderIndexes index.now earlier.now }
    ensures { result ≡ list_any (accepts name.now id.now) earlier.now }
{
    index.accepted(name, id).is_some()
}

fn report_continued(name: &Name, id: &Id, index: &LeaderIndex, earlier: &[Record]) -> bool
    requires { LeaderIndexes index.now earlier.now }
    ensures { result ≡ list_any (continues_report name.now id.now) earlier.now }
{
    index.continued(name, id).is_some()
}

fn continued(job: &JobNo, index: &LeaderIndex, earlier: &[Record]) -> bool
    requires { LeaderIndexes index.now earlier.now }
    ensures { result ≡ list_any (continues_job job.now) earlier.now }
{
    index.job(job).is_some()
}

fn finished(job: &JobNo, index: &LeaderIndex, earlier: &[Record]) -> bool
    requires { LeaderIndexes index.now earlier.now }
    ensures { result ≡ list_any (finishes_job job.now) earlier.now }
{
    index.finished(job).is_some()
}

fn closed(name: &Name, start: u64, index: &LeaderIndex, earlier: &[Record]) -> bool
    requires { LeaderIndexes index.now earlier.now }
    ensures { result ≡ list_any (leader_closes name.now start) earlier.now }
{
    index.closed(name, start).is_some()
}
