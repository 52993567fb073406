//! The rules of lanes by plain scans of the records before, as the plain program of `legal`.

use dap_batch::lane_of;
use dap_bytes::{Id, Name, Node};
use dap_messages::{JobNo, Spelled, Tagged};
use lane_records::{Format, MOST_LANES, Outcome, Record};

/// The place of the first record of a lane's journal that may not follow those before it.
pub(super) fn first_refused(node: Node, lane: u8, records: &[Record]) -> Option<u64> {
    for (place, x) in records.iter().enumerate() {
        if !may(node, lane, x, &records[..place]) {
            return Some(place as u64);
        }
    }
    None
}

fn may(node: Node, lane: u8, x: &Record, earlier: &[Record]) -> bool {
    x.is_allowed()
        && (opens(x).is_some() || earlier.iter().any(|y| opens(y).is_some()))
        && match node {
            Node::Leader => leader_may(lane, x, earlier),
            Node::Helper => helper_may(lane, x, earlier),
        }
}

/// How many lanes an Open of a lane names.
fn opens(x: &Record) -> Option<u8> {
    match x {
        Record::LeaderOpen(_, lanes, _) | Record::HelperOpen(_, lanes, _) => Some(*lanes),
        _ => None,
    }
}

fn may_open(lane: u8, lanes: u8, own: u8, earlier: &[Record]) -> bool {
    (1..=MOST_LANES).contains(&lanes)
        && earlier.iter().all(|y| opens(y).unwrap_or(lanes) == lanes)
        && own == lane
        && lane < lanes
}

fn has_format(format: Format, earlier: &[Record]) -> bool {
    earlier.iter().all(|y| match y {
        Record::LeaderOpen(other, _, _) | Record::HelperOpen(other, _, _) => {
            other.byte() <= format.byte()
        }
        _ => true,
    })
}

fn is_of_lane(lane: u8, id: &Id, earlier: &[Record]) -> bool {
    earlier.iter().any(|y| match opens(y) {
        Some(lanes) => 0 < lanes && lane_of(id, lanes) == lane,
        None => false,
    })
}

fn leader_may(lane: u8, x: &Record, earlier: &[Record]) -> bool {
    match x {
        Record::LeaderOpen(format, lanes, own) => {
            has_format(*format, earlier) && may_open(lane, *lanes, *own, earlier)
        }
        Record::Accept(report) => {
            is_of_lane(lane, &report.id, earlier) && !accepts(&report.name, &report.id, earlier)
        }
        Record::Continue(name, job, steps) => {
            let incarnation = earlier.iter().filter(|y| opens(y).is_some()).count();
            job.lane == lane
                && job.incarnation == incarnation as u64
                && !earlier.iter().any(
                    |y| matches!(y, Record::Continue(_, other, _) if *other == *job),
                )
                && steps.as_slice().iter().all(|item| {
                    accepts(name, &item.id, earlier) && !continues(name, &item.id, earlier)
                })
        }
        Record::Finish(job, outs) => {
            let continued = earlier.iter().any(|y| match y {
                Record::Continue(_, other, steps) => {
                    *other == *job && same_ids(steps.as_slice(), outs.as_slice())
                }
                _ => false,
            });
            continued
                && !earlier.iter().any(|y| matches!(y, Record::Finish(other, _) if *other == *job))
        }
        Record::LeaderClose(name, start, _) => !earlier.iter().any(
            |y| matches!(y, Record::LeaderClose(other, at, _) if *other == *name && *at == *start),
        ),
        _ => false,
    }
}

fn accepts(name: &Name, id: &Id, earlier: &[Record]) -> bool {
    earlier.iter().any(
        |y| matches!(y, Record::Accept(report) if report.name == *name && report.id == *id),
    )
}

fn continues(name: &Name, id: &Id, earlier: &[Record]) -> bool {
    earlier.iter().any(|y| match y {
        Record::Continue(other, _, steps) => {
            *other == *name && steps.as_slice().iter().any(|item| item.id == *id)
        }
        _ => false,
    })
}

fn same_ids<A, B>(left: &[Tagged<A>], right: &[Tagged<B>]) -> bool {
    left.len() == right.len() && left.iter().zip(right.iter()).all(|(a, b)| a.id == b.id)
}

fn helper_may(lane: u8, x: &Record, earlier: &[Record]) -> bool {
    match x {
        Record::HelperOpen(format, lanes, own) => {
            has_format(*format, earlier) && may_open(lane, *lanes, *own, earlier)
        }
        Record::Start(job, _, halves) => {
            job.lane == lane
                && halves
                    .as_slice()
                    .iter()
                    .all(|item| is_of_lane(lane, &item.id, earlier))
                && !earlier.iter().any(
                    |y| matches!(y, Record::Start(other, _, _) if *other == *job),
                )
        }
        Record::Commit(job, outs) => {
            may_commit(job, outs.as_slice(), earlier)
                && !earlier.iter().any(|y| matches!(y, Record::Commit(other, _) if *other == *job))
        }
        Record::HelperClose(name, start, _) => !earlier.iter().any(
            |y| matches!(y, Record::HelperClose(other, at, _) if *other == *name && *at == *start),
        ),
        _ => false,
    }
}

fn may_commit(job: &JobNo, outs: &[Tagged<Outcome>], earlier: &[Record]) -> bool {
    earlier.iter().any(|y| match y {
        Record::Start(other, name, halves) => {
            *other == *job
                && same_ids(halves.as_slice(), outs)
                && outs.iter().all(|item| !(is_finished(item)
                    && was_finished(name, &item.id, earlier)))
        }
        _ => false,
    })
}

fn is_finished(item: &Tagged<Outcome>) -> bool {
    matches!(item.body, Outcome::Finished(_))
}

fn was_finished(name: &Name, id: &Id, earlier: &[Record]) -> bool {
    earlier.iter().any(|y| match y {
        Record::Commit(job, outs) => {
            outs.as_slice()
                .iter()
                .any(|item| item.id == *id && is_finished(item))
                && starts_under(name, job, earlier)
        }
        _ => false,
    })
}

fn starts_under(name: &Name, job: &JobNo, earlier: &[Record]) -> bool {
    earlier.iter().any(|y| {
        matches!(y, Record::Start(other, under, _) if *other == *job && *under == *name)
    })
}
