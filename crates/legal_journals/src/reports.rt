//! Tables of reports.

ghost use Rattle.std.specs.Prelude.{◌≡◌, ◌≢◌, Bool, true, OnErr, OnOk, Some, None, cond};
ghost use Rattle.std.specs.Option.{option_or};
ghost use Rattle.legal_journals.specs.Reports.{Report, job_of, report_order, among};
ghost use Rattle.legal_journals.specs.Tables.{at, without};

use crate::table::Table;
use dap_bytes::{Id, Name};
use dap_messages::{JobNo, Step, Tagged};
use lane_records::Outcome;
use std::alloc::AllocError;

/// A job's lane, incarnation and counter.
pub(crate) type JobKey = (u8, u64, u64);

/// The key of a job.
pub(crate) fn job_key(job: &JobNo) -> JobKey
    ensures { job_of result ≡ job.now }
{
    (job.lane, job.incarnation, job.counter)
}

/// A body of items of which some are entered.
pub(crate) trait Marked {
    ghost marked: { Self → Bool };

    /// Whether an item with this body is entered.
    fn is_marked(&self) -> bool
        ensures { result ≡ marked self.now };
}

impl Marked for Step {
    ghost marked = { λ _. true };

    fn is_marked(&self) -> bool {
        true
    }
}

impl Marked for Outcome {
    ghost use Rattle.legal_journals.specs.LaneTests.{is_finished};

    ghost marked = { is_finished };

    fn is_marked(&self) -> bool {
        match self {
            Outcome::Finished(_) => true,
            Outcome::Failed(_) => false,
        }
    }
}

/// Gives the reports of the marked items a place, those that have none: all, or nothing changes.
pub(crate) fn enter_all<B: Marked>(
    table: &mut Table<(Name, Id), usize>,
    name: &Name,
    items: &[Tagged<B>],
    place: usize,
) -> Result<(), AllocError>
    ensures ok { OnOk result ((q : Report) → at report_order q table.new
        ≡ option_or (at report_order q table.old) (cond (among B.marked name.now items.now q) (Some place) None)) }
    // The place is to be a new one.
    ensures err { OnErr result (((q : Report) → at report_order q table.old ≢ Some place)
        → (q : Report) → at report_order q table.new ≡ at report_order q table.old) }
{
    for x in items {
        if x.body.is_marked() && table.enter((*name, x.id), place).is_err() {
            leave_all(table, name, items, place);
            return Err(AllocError {});
        }
    }
    Ok(())
}

/// Takes out the reports of the marked items that have this place. It takes no memory.
pub(crate) fn leave_all<B: Marked>(
    table: &mut Table<(Name, Id), usize>,
    name: &Name,
    items: &[Tagged<B>],
    place: usize,
)
    ensures { (q : Report)
        → at report_order q table.new ≡ without place (among B.marked name.now items.now q)
        (at report_order q table.old) }
{
    for x in items {
        if x.body.is_marked() {
            table.leave_at(&(*name, x.id), place);
        }
    }
}
