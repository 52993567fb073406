//! Which record may follow which in the journal of a helper's lane, by its index.

ghost use Rattle.std.specs.Prelude.{◌≡◌};
ghost use Rattle.std.specs.List.{list_any, list_all};
ghost use Rattle.dap_bytes.specs.declared.node.Node.TheVariants.{Helper};
ghost use Rattle.dap_bytes.specs.declared.part.Part.TheVariants.{Lane};
ghost use Rattle.legal_journals.specs.Legal.{IsLegalJournal};
ghost use Rattle.legal_journals.specs.HistoryTests.{is_of_lane};
ghost use Rattle.legal_journals.specs.LaneTests.{starts_job, commits_job, was_finished, is_new, starts_for, helper_closes, may_start, helper_lane_may};
ghost use Rattle.legal_journals.specs.Finished.{start_has};
ghost use Rattle.legal_journals.specs.Places.{HaveOneNumber};
ghost use Rattle.legal_journals.specs.HelperIndexed.{HelperIndexes};

use crate::helper_index::HelperIndex;
use crate::items::same_ids;
use crate::opens::Opens;
use crate::reports::Marked;
use crate::walk::PartIndex;
use dap_bytes::{Id, Name};
use dap_messages::{Half, JobNo, Tagged};
use lane_records::{Outcome, Record};
use std::alloc::AllocError;

impl PartIndex for HelperIndex {
    ghost use Rattle.dap_bytes.specs.declared.node.Node.TheVariants.{Helper};
    ghost use Rattle.dap_bytes.specs.declared.part.Part.TheVariants.{Lane};
    ghost use Rattle.legal_journals.specs.HelperIndexed.{HelperIndexes};

    ghost node = { Helper };

    ghost part = { Lane };

    ghost indexes = { HelperIndexes };

    fn opens(&self) -> Opens {
        self.opens
    }

    fn part_may(&self, lane: u8, x: &Record, earlier: &[Record]) -> bool {
        helper_lane_may(lane, x, self, earlier)
    }

    fn add(&mut self, x: &Record) -> Result<(), AllocError> {
        self.push(x)
    }
}

/// Whether the record may follow those before it, which are legal and which the index is of.
fn helper_lane_may(lane: u8, x: &Record, index: &HelperIndex, earlier: &[Record]) -> bool
    requires indexed { HelperIndexes index.now earlier.now }
    requires legal { IsLegalJournal Helper (Lane lane) earlier.now }
    requires numbered { HaveOneNumber earlier.now }
    ensures { result ≡ helper_lane_may lane x.now earlier.now }
{
    match x {
        Record::HelperOpen(format, lanes, own) => {
            index.opens.may_open(*format, *lanes, earlier) && *own == lane && lane < *lanes
        }
        Record::Start(job, _, halves) => may_start(lane, job, halves.as_slice(), index, earlier),
        Record::Commit(job, outcomes) => {
            started_for(lane, job, outcomes.as_slice(), index, earlier)
                && !committed(lane, job, index, earlier)
        }
        Record::HelperClose(name, start, _) => !closed(lane, name, *start, index, earlier),
        _ => false,
    }
}

/// Whether a Start may follow: of a new job of this lane, with reports of this lane.
fn may_start(
    lane: u8,
    job: &JobNo,
    halves: &[Tagged<Half>],
    index: &HelperIndex,
    earlier: &[Record],
) -> bool
    requires indexed { HelperIndexes index.now earlier.now }
    requires legal { IsLegalJournal Helper (Lane lane) earlier.now }
    requires numbered { HaveOneNumber earlier.now }
    ensures { result ≡ may_start lane job.now halves.now earlier.now }
{
    job.lane == lane
        && are_of_lane(lane, halves, index, earlier)
        && !started(lane, job, index, earlier)
}

/// Whether each item's report is of this lane.
fn are_of_lane(lane: u8, halves: &[Tagged<Half>], index: &HelperIndex, earlier: &[Record]) -> bool
    requires indexed { HelperIndexes index.now earlier.now }
    requires legal { IsLegalJournal Helper (Lane lane) earlier.now }
    requires numbered { HaveOneNumber earlier.now }
    ensures { result ≡ list_all (λ x. is_of_lane lane x.id earlier.now) halves.now }
{
    for x in halves {
        if !index.opens.is_of_lane(lane, &x.id, earlier) {
            return false;
        }
    }
    true
}

/// Whether the job has its Start, with the identifiers of these outcomes, of which none is that of a report which was
/// finished before.
fn started_for(
    lane: u8,
    job: &JobNo,
    outcomes: &[Tagged<Outcome>],
    index: &HelperIndex,
    earlier: &[Record],
) -> bool
    requires indexed { HelperIndexes index.now earlier.now }
    requires legal { IsLegalJournal Helper (Lane lane) earlier.now }
    ensures { result ≡ list_any (starts_for job.now outcomes.now earlier.now) earlier.now }
{
    let Some(place) = index.started(job) else {
        return false;
    };
    let Some(x) = earlier.get(place) else {
        return false;
    };
    start_has(lane, outcomes, x, index, earlier)
}

/// Whether the record is a Start with the identifiers of these outcomes, of which none was finished before.
fn start_has(
    lane: u8,
    outcomes: &[Tagged<Outcome>],
    x: &Record,
    index: &HelperIndex,
    earlier: &[Record],
) -> bool
    requires indexed { HelperIndexes index.now earlier.now }
    requires legal { IsLegalJournal Helper (Lane lane) earlier.now }
    ensures { result ≡ start_has outcomes.now earlier.now x.now }
{
    match x {
        Record::Start(_, name, halves) => {
            same_ids(halves.as_slice(), outcomes) && are_new(lane, name, outcomes, index, earlier)
        }
        _ => false,
    }
}

/// Whether no outcome is that of a report which was finished before.
fn are_new(
    lane: u8,
    name: &Name,
    outcomes: &[Tagged<Outcome>],
    index: &HelperIndex,
    earlier: &[Record],
) -> bool
    requires indexed { HelperIndexes index.now earlier.now }
    requires legal { IsLegalJournal Helper (Lane lane) earlier.now }
    ensures { result ≡ list_all (is_new name.now earlier.now) outcomes.now }
{
    for x in outcomes {
        if !is_new(lane, name, x, index, earlier) {
            return false;
        }
    }
    true
}

/// Whether the outcome isn't that of a report which was finished before.
fn is_new(
    lane: u8,
    name: &Name,
    x: &Tagged<Outcome>,
    index: &HelperIndex,
    earlier: &[Record],
) -> bool
    requires indexed { HelperIndexes index.now earlier.now }
    requires legal { IsLegalJournal Helper (Lane lane) earlier.now }
    ensures { result ≡ is_new name.now earlier.now x.now }
{
    !(x.body.is_marked() && finished(lane, name, &x.id, index, earlier))
}

/// Whether the job has its Start.
fn started(lane: u8, job: &JobNo, index: &HelperIndex, earlier: &[Record]) -> bool
    requires indexed { HelperIndexes index.now earlier.now }
    requires legal { IsLegalJournal Helper (Lane lane) earlier.now }
    ensures { result ≡ list_any (starts_job job.now) earlier.now }
{
    index.started(job).is_some()
}

/// Whether the job has its Commit.
fn committed(lane: u8, job: &JobNo, index: &HelperIndex, earlier: &[Record]) -> bool
    requires indexed { HelperIndexes index.now earlier.now }
    requires legal { IsLegalJournal Helper (Lane lane) earlier.now }
    ensures { result ≡ list_any (commits_job job.now) earlier.now }
{
    index.committed(job).is_some()
}

/// Whether the report was finished.
fn finished(lane: u8, name: &Name, id: &Id, index: &HelperIndex, earlier: &[Record]) -> bool
    requires indexed { HelperIndexes index.now earlier.now }
    requires legal { IsLegalJournal Helper (Lane lane) earlier.now }
    ensures { result ≡ was_finished name.now id.now earlier.now }
{
    index.finished(name, id).is_some()
}

/// Whether the batch has its Close.
fn closed(lane: u8, name: &Name, start: u64, index: &HelperIndex, earlier: &[Record]) -> bool
    requires indexed { HelperIndexes index.now earlier.now }
    requires legal { IsLegalJournal Helper (Lane lane) earlier.now }
    ensures { result ≡ list_any (helper_closes name.now start) earlier.now }
{
    index.closed(name, start).is_some()
}
