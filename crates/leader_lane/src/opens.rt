//! Whether a journal's Opens are of a place.

ghost use Rattle.std.specs.Prelude.{◌≡◌, ◌↔◌, ℕ, IsTrue, Some};
ghost use Rattle.legal_journals.specs.History.{lanes_in};
ghost use Rattle.leader_lane.specs.Sound.{OpensAre};

use lane_records::{Place, Record};

/// The number of lanes that an Open names. None for other records.
fn lanes_in(x: &Record) -> Option<u8>
    ensures { result ≡ lanes_in x.now }
{
    match x {
        Record::LeaderOpen(_, lanes, _)
        | Record::HelperOpen(_, lanes, _)
        | Record::LeaderFrontOpen(_, lanes)
        | Record::HelperFrontOpen(_, lanes) => Some(*lanes),
        _ => None,
    }
}

fn is_of_place(place: Place, x: &Record) -> bool
    ensures { IsTrue result ↔ ((n : ℕ) → lanes_in x.now ≡ Some n → n ≡ place.lanes) }
{
    match lanes_in(x) {
        Some(lanes) => lanes == place.lanes,
        None => true,
    }
}

/// Whether each Open among these records names the place's number of lanes, as a lane's `open` wants of its journal. It
/// takes no memory.
pub fn opens_fit(place: Place, records: &[Record]) -> bool
    ensures { IsTrue result ↔ OpensAre place records.now }
{
    for x in records {
        if !is_of_place(place, x) {
            return false;
        }
    }
    true
}
