//! What the indexes answer, with one record more and without it.

use super::made::{
    Accept, Commit, Continue, Finish, HelperClose, HelperOpen, LeaderClose, LeaderOpen, Made,
    Start, job, name, record,
};
use super::{JOB, NEXT};
use crate::{HelperIndex, LeaderIndex, Waiting};
use dap_bytes::Id;
use std::alloc::Global;
use std::test::Fail;

const A: Id = [b'a'; 16];

const C: Id = [b'c'; 16];

/// Where nothing is told.
const NONE: usize = 99;

const LEADER: [Made; 8] = [
    LeaderOpen(2, 1),
    Accept(b'v', b'a'),
    Accept(b'w', b'a'),
    Accept(b'v', b'c'),
    Continue(b'v', JOB, b"ac"),
    Finish(JOB, b"a", b"c"),
    LeaderClose(b'v', 60),
    LeaderOpen(2, 1),
];

/// What is told after each record: the places of the Accepts of `v` and `w` with the identifier a, of the Continue with
/// the report c of `v`, of the job and its Finish, of the Close of `v` from 60 on; and the number of Opens.
const LEADER_TOLD: [&[usize]; 8] = [
    &[NONE, NONE, NONE, NONE, NONE, NONE, 1],
    &[1, NONE, NONE, NONE, NONE, NONE, 1],
    &[1, 2, NONE, NONE, NONE, NONE, 1],
    &[1, 2, NONE, NONE, NONE, NONE, 1],
    &[1, 2, 4, 4, NONE, NONE, 1],
    &[1, 2, 4, 4, 5, NONE, 1],
    &[1, 2, 4, 4, 5, 6, 1],
    &[1, 2, 4, 4, 5, 6, 2],
];

fn leader_tells(index: &LeaderIndex, told: &[usize]) -> Result<bool, Fail> {
    let (v, w) = (name(b'v')?, name(b'w')?);
    let job = job(JOB);
    let found = [
        index.accepted(&v, &A).unwrap_or(NONE),
        index.accepted(&w, &A).unwrap_or(NONE),
        index.continued(&v, &C).unwrap_or(NONE),
        index.job(&job).unwrap_or(NONE),
        index.finished(&job).unwrap_or(NONE),
        index.closed(&v, 60).unwrap_or(NONE),
        index.incarnation(),
    ];
    Ok(found.as_slice() == told)
}

/// Whether the index tells so after each record.
fn leader_grows(alloc: Global, index: &mut LeaderIndex) -> Result<bool, Fail> {
    for (made, told) in LEADER.iter().zip(LEADER_TOLD.iter()) {
        index.push(&record(alloc, *made)?)?;
        if !leader_tells(index, told)? {
            return Ok(false);
        }
    }
    Ok(true)
}

/// Whether it tells so again as each record is taken back.
fn leader_shrinks(alloc: Global, index: &mut LeaderIndex) -> Result<bool, Fail> {
    for (made, told) in LEADER[1..].iter().rev().zip(LEADER_TOLD[..7].iter().rev()) {
        index.take_back(&record(alloc, *made)?);
        if !leader_tells(index, told)? {
            return Ok(false);
        }
    }
    Ok(true)
}

#[test]
fn a_leaders_index_tells_the_places(rt: HostRuntime) -> Result<(), Fail> {
    let alloc = rt.alloc();
    let mut index = LeaderIndex::new(alloc);
    assert!(rt; leader_grows(alloc, &mut index)?);
    assert!(rt; leader_shrinks(alloc, &mut index)?);
    Ok(())
}

const HELPER: [Made; 6] = [
    HelperOpen(2, 1),
    Start(JOB, b'v', b"ac"),
    Commit(JOB, b"a", b"c"),
    Start(NEXT, b'w', b"a"),
    HelperClose(b'v', 60),
    HelperOpen(2, 1),
];

/// What is told after each record: the places of both jobs' Starts and the first one's Commit, of the Commits that
/// finished the reports a and c of `v` and a of `w`, of the Close of `v` from 60 on; and the number of Opens.
const HELPER_TOLD: [&[usize]; 6] = [
    &[NONE, NONE, NONE, NONE, NONE, NONE, NONE, 1],
    &[1, NONE, NONE, NONE, NONE, NONE, NONE, 1],
    &[1, NONE, 2, 2, NONE, NONE, NONE, 1],
    &[1, 3, 2, 2, NONE, NONE, NONE, 1],
    &[1, 3, 2, 2, NONE, NONE, 4, 1],
    &[1, 3, 2, 2, NONE, NONE, 4, 2],
];

fn helper_tells(index: &HelperIndex, told: &[usize]) -> Result<bool, Fail> {
    let (v, w) = (name(b'v')?, name(b'w')?);
    let found = [
        index.started(&job(JOB)).unwrap_or(NONE),
        index.started(&job(NEXT)).unwrap_or(NONE),
        index.committed(&job(JOB)).unwrap_or(NONE),
        index.finished(&v, &A).unwrap_or(NONE),
        index.finished(&v, &C).unwrap_or(NONE),
        index.finished(&w, &A).unwrap_or(NONE),
        index.closed(&v, 60).unwrap_or(NONE),
        index.incarnation(),
    ];
    Ok(found.as_slice() == told)
}

fn helper_grows(alloc: Global, index: &mut HelperIndex) -> Result<bool, Fail> {
    for (made, told) in HELPER.iter().zip(HELPER_TOLD.iter()) {
        index.push(&record(alloc, *made)?)?;
        if !helper_tells(index, told)? {
            return Ok(false);
        }
    }
    Ok(true)
}

fn helper_shrinks(alloc: Global, index: &mut HelperIndex) -> Result<bool, Fail> {
    for (made, told) in HELPER[1..].iter().rev().zip(HELPER_TOLD[..5].iter().rev()) {
        index.take_back(&record(alloc, *made)?);
        if !helper_tells(index, told)? {
            return Ok(false);
        }
    }
    Ok(true)
}

#[test]
fn a_helpers_index_tells_the_places(rt: HostRuntime) -> Result<(), Fail> {
    let alloc = rt.alloc();
    let mut index = HelperIndex::new(alloc);
    assert!(rt; helper_grows(alloc, &mut index)?);
    assert_eq!(rt; index.name(&job(NEXT)), Some(name(b'w')?));
    assert!(rt; helper_shrinks(alloc, &mut index)?);
    assert_eq!(rt; index.name(&job(JOB)), None);
    Ok(())
}

/// The first two places at which reports wait in a group.
fn waits<G: Ord + Copy + Drop>(waiting: &Waiting<G>, group: G) -> [usize; 2] {
    let first = waiting.next(group, 0).unwrap_or(NONE);
    let second = waiting.next(group, first.saturating_add(1)).unwrap_or(NONE);
    [first, second]
}

#[test]
fn reports_wait_in_the_order_of_their_accepts(rt: HostRuntime) -> Result<(), Fail> {
    let (v, w) = (name(b'v')?, name(b'w')?);
    let mut waiting = Waiting::new(rt.alloc());
    waiting.enter(v, 1, &A)?;
    waiting.enter(w, 2, &A)?;
    waiting.enter(v, 3, &C)?;
    assert_eq!(rt; waits(&waiting, v), [1, 3]);
    assert_eq!(rt; waits(&waiting, w), [2, NONE]);
    waiting.settle(v, 1);
    waiting.settle(v, 2);
    assert_eq!(rt; waits(&waiting, v), [3, NONE]);
    waiting.take_back(v, 3);
    assert_eq!(rt; waits(&waiting, v), [NONE, NONE]);
    assert_eq!(rt; waits(&waiting, w), [2, NONE]);
    Ok(())
}

#[test]
fn reports_of_a_bucket_wait_apart_from_its_neighbours(rt: HostRuntime) -> Result<(), Fail> {
    let (v, w) = (name(b'v')?, name(b'w')?);
    let mut waiting = Waiting::new(rt.alloc());
    for (place, group) in [(v, 60), (v, 0), (w, 60), (v, 60)].iter().enumerate() {
        waiting.enter(*group, place, &A)?;
    }
    assert_eq!(rt; waits(&waiting, (v, 60)), [0, 3]);
    assert_eq!(rt; waits(&waiting, (v, 0)), [1, NONE]);
    assert_eq!(rt; waits(&waiting, (v, 30)), [NONE, NONE]);
    assert_eq!(rt; waits(&waiting, (w, 60)), [2, NONE]);
    waiting.settle((v, 60), 0);
    assert_eq!(rt; waits(&waiting, (v, 60)), [3, NONE]);
    Ok(())
}
