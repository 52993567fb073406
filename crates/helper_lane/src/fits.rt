//! Whether a journal's records suit a lane's place and tasks.

ghost use Rattle.std.specs.Prelude.{◌≡◌, ◌↔◌, IsTrue, reverse};
ghost use Rattle.std.specs.List.{list_all};
ghost use Rattle.legal_journals.specs.History.{lanes_in};
ghost use Rattle.helper_lane.specs.Own.{NamesAreKnown, OpensAre};
ghost use Rattle.helper_lane.specs.Refusals.{env_of};
ghost use Rattle.helper_lane.specs.Suits.{names_lanes, names_task, suits};

use dap_tasks::Tasks;
use lane_records::{Place, Record};
use vdaf_api::Vdaf;

/// The number of lanes that an Open names. None for other records.
fn lanes_in(x: &Record) -> Option<u8>
    ensures { result ≡ lanes_in x.now }
{
    match x {
        Record::LeaderOpen(_, lanes, _)
        | Record::HelperOpen(_, lanes, _)
        | Record::LeaderFrontOpen(_, lanes)
        | Record::HelperFrontOpen(_, lanes) => Some(*lanes),
        _ => None,
    }
}

/// Whether the record names the place's number of lanes, if it is an Open.
fn names_lanes(place: Place, x: &Record) -> bool
    ensures { result ≡ names_lanes place.lanes (lanes_in x.now) }
{
    match lanes_in(x) {
        Some(lanes) => lanes == place.lanes,
        None => true,
    }
}

/// Whether the record names one of the tasks, if it is a Start.
fn names_task<V: Vdaf>(tasks: &Tasks<V>, x: &Record) -> bool
    ensures { result ≡ names_task tasks.now x.now }
{
    match x {
        Record::Start(_, name, _) => tasks.find(name).is_some(),
        _ => true,
    }
}

/// Whether each record suits the place and the tasks.
fn all_suit<V: Vdaf>(place: Place, tasks: &Tasks<V>, records: &[Record]) -> bool
    ensures { result ≡ list_all (suits (env_of V.of_kind place tasks.now)) records.now }
{
    match records {
        [] => true,
        [one, more @ ..] => {
            (names_lanes(place, one) && names_task(tasks, one)) && all_suit(place, tasks, more)
        }
    }
}

/// Whether each Open among these records names the place's number of lanes, and each Start one of the tasks, as a lane's
/// `open` wants of its journal. It takes no memory.
pub fn records_fit<V: Vdaf>(place: Place, tasks: &Tasks<V>, records: &[Record]) -> bool
    ensures { IsTrue result ↔ (OpensAre (env_of V.of_kind place tasks.now) (reverse records.now)
        × NamesAreKnown (env_of V.of_kind place tasks.now) (reverse records.now)) }
{
    all_suit(place, tasks, records)
}
