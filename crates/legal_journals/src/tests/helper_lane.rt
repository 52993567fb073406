//! Journals of a helper's lane.

use super::made::{
    Accept, Commit, HelperClose, HelperOpen, HelperOpenTwo, HelperTask, LeaderClose, LeaderOpen,
    Start,
};
use super::{Case, JOB, NEXT, first_wrong};
use dap_bytes::{Node, Part};
use std::test::Fail;

const OPENS: [Case; 11] = [
    (&[], None),
    (&[HelperOpen(2, 1), HelperOpen(2, 1)], None),
    (&[HelperOpen(2, 1), HelperOpenTwo(2, 1)], None),
    (&[HelperOpenTwo(2, 1), HelperOpen(2, 1)], Some(1)),
    (&[HelperOpen(16, 1)], None),
    (&[HelperOpen(17, 1)], Some(0)),
    (&[HelperOpen(1, 1)], Some(0)),
    (&[HelperOpen(2, 0)], Some(0)),
    (&[HelperOpen(2, 1), HelperOpen(4, 1)], Some(1)),
    (&[HelperClose(b'v', 0)], Some(0)),
    (&[HelperClose(b'v', 0), HelperOpen(2, 1)], Some(0)),
];

const STARTS: [Case; 6] = [
    (
        &[
            HelperOpen(2, 1),
            Start(JOB, b'v', b"ac"),
            Start((1, 9, 9), b'v', b"ac"),
        ],
        None,
    ),
    (&[Start(JOB, b'v', b"a")], Some(0)),
    (&[HelperOpen(2, 1), Start((0, 1, 0), b'v', b"a")], Some(1)),
    (&[HelperOpen(2, 1), Start(JOB, b'v', b"ab")], Some(1)),
    (&[HelperOpen(2, 1), Start(JOB, b'v', b"ca")], Some(1)),
    (
        &[
            HelperOpen(2, 1),
            Start(JOB, b'v', b"a"),
            Start(JOB, b'w', b"c"),
        ],
        Some(2),
    ),
];

const COMMITS: [Case; 11] = [
    (
        &[
            HelperOpen(2, 1),
            Start(JOB, b'v', b"ac"),
            Commit(JOB, b"a", b"c"),
        ],
        None,
    ),
    (&[HelperOpen(2, 1), Commit(JOB, b"a", b"")], Some(1)),
    (
        &[
            HelperOpen(2, 1),
            Start(JOB, b'v', b"a"),
            Commit((1, 2, 0), b"a", b""),
        ],
        Some(2),
    ),
    (
        &[
            HelperOpen(2, 1),
            Start(JOB, b'v', b"a"),
            Commit((0, 1, 0), b"a", b""),
        ],
        Some(2),
    ),
    (
        &[
            HelperOpen(2, 1),
            Start(JOB, b'v', b"a"),
            Commit(JOB, b"c", b""),
        ],
        Some(2),
    ),
    (
        &[
            HelperOpen(2, 1),
            Start(JOB, b'v', b"ac"),
            Commit(JOB, b"a", b""),
        ],
        Some(2),
    ),
    (
        &[
            HelperOpen(2, 1),
            Start(JOB, b'v', b"a"),
            Commit(JOB, b"", b"a"),
            Commit(JOB, b"", b"a"),
        ],
        Some(3),
    ),
    (
        &[
            HelperOpen(2, 1),
            Start(JOB, b'v', b"a"),
            Start(NEXT, b'v', b"a"),
            Commit(JOB, b"a", b""),
            Commit(NEXT, b"a", b""),
        ],
        Some(4),
    ),
    (
        &[
            HelperOpen(2, 1),
            Start(JOB, b'v', b"a"),
            Start(NEXT, b'v', b"a"),
            Commit(JOB, b"a", b""),
            Commit(NEXT, b"", b"a"),
        ],
        None,
    ),
    (
        &[
            HelperOpen(2, 1),
            Start(JOB, b'v', b"a"),
            Start(NEXT, b'v', b"a"),
            Commit(JOB, b"", b"a"),
            Commit(NEXT, b"a", b""),
        ],
        None,
    ),
    (
        &[
            HelperOpen(2, 1),
            Start(JOB, b'v', b"a"),
            Start(NEXT, b'w', b"a"),
            Commit(JOB, b"a", b""),
            Commit(NEXT, b"a", b""),
        ],
        None,
    ),
];

const CLOSES: [Case; 2] = [
    (
        &[
            HelperOpen(2, 1),
            HelperClose(b'v', 0),
            HelperClose(b'v', 60),
            HelperClose(b'w', 0),
        ],
        None,
    ),
    (
        &[HelperOpen(2, 1), HelperClose(b'v', 0), HelperClose(b'v', 0)],
        Some(2),
    ),
];

/// Records of other parts.
const OTHERS: [Case; 4] = [
    (&[LeaderOpen(2, 1)], Some(0)),
    (&[HelperOpen(2, 1), Accept(b'v', b'a')], Some(1)),
    (&[HelperOpen(2, 1), LeaderClose(b'v', 0)], Some(1)),
    (&[HelperOpen(2, 1), HelperTask(b'v', 1)], Some(1)),
];

#[test]
fn a_helpers_lane_keeps_its_rules(rt: HostRuntime) -> Result<(), Fail> {
    let alloc = rt.alloc();
    assert_eq!(rt;
        first_wrong(alloc, Node::Helper, Part::Lane(1), &OPENS)?,
        None
    );
    assert_eq!(rt;
        first_wrong(alloc, Node::Helper, Part::Lane(1), &STARTS)?,
        None
    );
    assert_eq!(rt;
        first_wrong(alloc, Node::Helper, Part::Lane(1), &COMMITS)?,
        None
    );
    assert_eq!(rt;
        first_wrong(alloc, Node::Helper, Part::Lane(1), &CLOSES)?,
        None
    );
    assert_eq!(rt;
        first_wrong(alloc, Node::Helper, Part::Lane(1), &OTHERS)?,
        None
    );
    Ok(())
}
