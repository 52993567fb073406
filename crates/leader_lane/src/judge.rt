//! What an upload comes to.

ghost use Rattle.std.specs.Prelude.{◌≡◌, ◌≤◌, ◌<◌, ◌++◌, IsTrue, IfSome, Some};
ghost use Rattle.std.specs.List.{find, list_all, slice_get};
ghost use Rattle.std.specs.Option.{option_map};
ghost use Rattle.dap_messages.specs.Messages.{report};
ghost use Rattle.dap_messages.specs.Reports.{has_key};
ghost use Rattle.dap_tasks.specs.Judged.{is_known_as, judged};
ghost use Rattle.lane_records.specs.Records.{record_};
ghost use Rattle.leader_lane.specs.Catalog.{Lists};
ghost use Rattle.leader_lane.specs.Judge.{reports_in, closes_in, report_of, judge_report};

use crate::catalog::Catalog;
use dap_batch::{batch_of, lane_of};
use dap_bytes::{Id, Name};
use dap_messages::Report;
use dap_tasks::{Cause, Judged, Tasks, is_early, is_expired};
use dap_wire::Upload;
use lane_records::{Place, Record};
use vdaf_api::Vdaf;

/// The record at a place among the records with the block behind them.
fn record_at<'a>(records: &'a [Record], block: &'a [Record], place: usize) -> Option<&'a Record>
    ensures { option_map (λ x. x.now) result ≡ slice_get (records.now ++ block.now) place }
{
    if place < records.len() {
        records.get(place)
    } else {
        block.get(place - records.len())
    }
}

/// The accepted report of this name and identifier.
fn find_report<'a>(
    records: &'a [Record],
    block: &'a [Record],
    catalog: &Catalog,
    name: &Name,
    id: &Id,
) -> Option<&'a Report>
    requires { Lists catalog.now records.now block.now }
    ensures { option_map (λ r. r.now) result ≡ find (has_key name.now id.now) (reports_in (records.now ++ block.now)) }
{
    let place = catalog.accepted(name, id)?;
    match record_at(records, block, place)? {
        Record::Accept(r) => Some(r),
        _ => None,
    }
}

/// Whether a report is known, and has the same bytes.
fn is_again(known: Option<&Report>, r: &Report) -> bool
    requires known { IfSome known (λ k. IsTrue (report.allowed k.now)) }
    requires allowed { IsTrue (report.allowed r.now) }
    ensures { result ≡ is_known_as (option_map (λ k. report.spell k.now) known.entry) (report.spell r.now) }
{
    match known {
        Some(known) => known.is_same(r),
        None => false,
    }
}

/// What a report of a task comes to, where this report of its name and identifier is known.
#[tactic(auto, using(crate::proofs::FoundLaws::is_some_mapped))]
fn judge_known(
    known: Option<&Report>,
    moment: Option<u64>,
    expires: Option<u64>,
    closed: bool,
    r: &Report,
) -> Judged
    requires known { IfSome known (λ k. IsTrue (report.allowed k.now)) }
    requires allowed { IsTrue (report.allowed r.now) }
    ensures { result ≡ judged (option_map (λ k. report.spell k.now) known.entry) moment expires closed
        (report.spell r.now) r.now.time }
{
    if is_again(known, r) {
        Judged::Again
    } else if is_early(moment, r.time) {
        Judged::Barred(Cause::Early)
    } else if is_expired(moment, expires) {
        Judged::Barred(Cause::Expired)
    } else if known.is_some() {
        Judged::Barred(Cause::Conflict)
    } else if closed {
        Judged::Barred(Cause::Collected)
    } else {
        Judged::Added
    }
}

/// What the report of an upload comes to, behind these records and the block in hand. It takes no memory.
pub(crate) fn judge_report<V: Vdaf>(
    place: Place,
    tasks: &Tasks<V>,
    records: &[Record],
    block: &[Record],
    catalog: &Catalog,
    u: &Upload,
    r: &Report,
) -> Judged
    requires lanes { 0 < place.lanes }
    requires lists { Lists catalog.now records.now block.now }
    requires records { IsTrue (list_all record_.allowed (records.now ++ block.now)) }
    requires allowed { IsTrue (report.allowed r.now) }
    requires bytes { u.now.report ≡ report.spell r.now }
    ensures { result ≡ judge_report (record { tasks = tasks.now; place = place })
        (closes_in (records.now ++ block.now)) (reports_in (records.now ++ block.now)) u.now r.now }
{
    if lane_of(&r.id, place.lanes) != place.lane {
        return Judged::Barred(Cause::Task);
    }
    let Some((task, _)) = tasks.find(&r.name) else {
        return Judged::Barred(Cause::Task);
    };
    let known = find_report(records, block, catalog, &r.name, &r.id);
    let closed = catalog.is_closed(&r.name, batch_of(r.time, task.precision));
    judge_known(known, u.moment, task.expires, closed, r)
}
