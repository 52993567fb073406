//! The reports of a request or of a reply, as a lane compares them.

ghost use Rattle.std.specs.Prelude.{◌≡◌, ◌<◌};
ghost use Rattle.std.specs.List.{list_all};
ghost use Rattle.std.specs.Cmp.Lexicographic.{pointwise};
ghost use Rattle.dap_views.specs.Parts.{item_of};
ghost use Rattle.dap_views.specs.Request.{parts_left};
ghost use Rattle.legal_journals.specs.HistoryTests.{same_ids};
ghost use Rattle.helper_lane.specs.Refusals.{started};
ghost use Rattle.helper_lane.specs.Reply.{is_here, is_mine, same_half, same_start};

use dap_batch::lane_of;
use dap_bytes::{Id, Name};
use dap_messages::{Half, JobNo, Tagged};
use dap_views::{PartView, RequestView};
use lane_records::Place;

/// Whether the report is of the lane at this place.
fn is_here(place: Place, id: &Id) -> bool
    requires { 0 < place.lanes }
    ensures { result ≡ is_here place.lanes place.lane id.now }
{
    lane_of(id, place.lanes) == place.lane
}

/// Whether each item's report is of the lane at this place.
pub(crate) fn are_here<B>(place: Place, items: &[Tagged<B>]) -> bool
    requires { 0 < place.lanes }
    ensures { result ≡ list_all (λ x. is_here place.lanes place.lane x.id) items.now }
{
    match items {
        [] => true,
        [one, more @ ..] => is_here(place, &one.id()) && are_here(place, more),
    }
}

/// Whether each report whose parts are yet to come is of the lane at this place.
fn parts_are_here(place: Place, request: RequestView<'_>) -> bool
    requires { 0 < place.lanes }
    ensures { result ≡ list_all (λ x. is_here place.lanes place.lane x.id) (parts_left request.entry) }
{
    let mut parts = request;
    match parts.next() {
        None => true,
        Some(part) => is_here(place, &part.id) && parts_are_here(place, parts),
    }
}

/// Whether the job and each report whose parts are yet to come are of the lane at this place.
pub(crate) fn is_mine(place: Place, job: &JobNo, request: RequestView<'_>) -> bool
    requires { 0 < place.lanes }
    ensures { result ≡ is_mine place.lanes place.lane job.now (parts_left request.entry) }
{
    job.lane == place.lane && parts_are_here(place, request)
}

/// Whether the parts of a report are what the helper got of it.
fn same_part(half: &Tagged<Half>, part: &PartView<'_>) -> bool
    ensures { result ≡ same_half half.now (item_of part.now) }
{
    half.id == part.id
        && (half.body.time == part.time
            && (half.body.public.as_slice() == part.public
                && half.body.helper.as_slice() == part.helper))
}

/// Whether the parts that are yet to come are what the helper got, report by report.
fn same_parts(halves: &[Tagged<Half>], request: RequestView<'_>) -> bool
    ensures { result ≡ pointwise same_half halves.now (parts_left request.entry) }
{
    let mut parts = request;
    match (halves, parts.next()) {
        ([], None) => true,
        ([half, more @ ..], Some(part)) => same_part(half, &part) && same_parts(more, parts),
        _ => false,
    }
}

/// Whether a job's Start, of this name and these halves, is that of a request whose parts are yet to come.
pub(crate) fn same_start(
    other: &Name,
    halves: &[Tagged<Half>],
    name: &Name,
    request: RequestView<'_>,
) -> bool
    ensures { result ≡ same_start (started other.now halves.now) name.now (parts_left request.entry) }
{
    *other == *name && same_parts(halves, request)
}

/// Whether both lists have the same identifiers in order.
pub(crate) fn same_ids<A, B>(left: &[Tagged<A>], right: &[Tagged<B>]) -> bool
    ensures { result ≡ same_ids left.now right.now }
{
    match (left, right) {
        ([], []) => true,
        ([one, left @ ..], [other, right @ ..]) => one.id() == other.id() && same_ids(left, right),
        _ => false,
    }
}
