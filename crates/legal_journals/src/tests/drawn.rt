//! Journals whose records are drawn from a short list: `legal` answers as the plain program does.

use super::made::{
    Accept, Commit, Continue, Finish, HelperClose, HelperOpen, LeaderClose, LeaderOpen, Made,
    Start, record,
};
use super::{JOB, NEXT, plain};
use crate::legal;
use dap_bytes::{Node, Part};
use std::alloc::Global;
use std::test::Fail;

/// Records of the leader's lane 1 among 2, in an order in which they may follow but for few.
const LEADER: [Made; 16] = [
    LeaderOpen(2, 1),
    Accept(b'v', b'a'),
    Accept(b'v', b'c'),
    Accept(b'w', b'a'),
    Continue(b'v', JOB, b"a"),
    Accept(b'v', b'e'),
    Finish(JOB, b"a", b""),
    Continue(b'v', NEXT, b"ce"),
    LeaderClose(b'v', 0),
    Continue(b'w', (1, 1, 2), b"a"),
    Finish(NEXT, b"c", b"e"),
    LeaderOpen(2, 1),
    Continue(b'w', (1, 2, 0), b"a"),
    LeaderClose(b'v', 60),
    Finish((1, 2, 0), b"", b"a"),
    Accept(b'v', b'b'),
];

/// Records of the helper's lane 1 among 2, likewise.
const HELPER: [Made; 16] = [
    HelperOpen(2, 1),
    Start(JOB, b'v', b"ac"),
    Commit(JOB, b"a", b"c"),
    Start(NEXT, b'v', b"a"),
    HelperClose(b'v', 0),
    Start((1, 1, 2), b'w', b"a"),
    Commit((1, 1, 2), b"a", b""),
    Commit(NEXT, b"", b"a"),
    HelperOpen(2, 1),
    Start((1, 2, 0), b'v', b"ce"),
    Commit((1, 2, 0), b"ce", b""),
    HelperClose(b'w', 0),
    Start((1, 2, 1), b'v', b"e"),
    Commit((1, 2, 1), b"e", b""),
    Start((1, 2, 2), b'v', b"b"),
    HelperClose(b'v', 60),
];

/// The journal whose record at each place is that of the list at the place that the draw gives.
fn agrees(alloc: Global, node: Node, list: &[Made; 16], draw: &[u8]) -> Result<bool, Fail> {
    let mut records = Vec::new(alloc);
    for place in draw {
        if let Some(made) = list.get(usize::from(*place)) {
            records.push(record(alloc, *made)?)?;
        }
    }
    let found = legal(alloc, Part::Lane(1), node, &records)?;
    Ok(found == plain::first_refused(node, 1, &records))
}

/// The list with the records at two places changed for one another, and once more with one twice.
fn all_agree(alloc: Global, node: Node, list: &[Made; 16], left: u8) -> Result<bool, Fail> {
    for right in 0..16 {
        let mut draw = [0, 1, 2, 3, 4, 5, 6, 7, 8, 9, 10, 11, 12, 13, 14, 15];
        draw[usize::from(left % 16)] = right;
        draw[usize::from(right % 16)] = left;
        if !agrees(alloc, node, list, &draw)? {
            return Ok(false);
        }
        draw[usize::from(left % 16)] = right;
        draw[usize::from(right % 16)] = right;
        if !agrees(alloc, node, list, &draw)? {
            return Ok(false);
        }
    }
    Ok(true)
}

#[test]
fn legal_answers_for_a_leaders_lane_as_a_plain_scan(rt: HostRuntime) -> Result<(), Fail> {
    let alloc = rt.alloc();
    for left in 0..16 {
        assert_eq!(rt; all_agree(alloc, Node::Leader, &LEADER, left)?, true);
    }
    Ok(())
}

#[test]
fn legal_answers_for_a_helpers_lane_as_a_plain_scan(rt: HostRuntime) -> Result<(), Fail> {
    let alloc = rt.alloc();
    for left in 0..16 {
        assert_eq!(rt; all_agree(alloc, Node::Helper, &HELPER, left)?, true);
    }
    Ok(())
}
