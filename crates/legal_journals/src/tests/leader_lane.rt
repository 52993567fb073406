//! Journals of a leader's lane.

use super::made::{
    Accept, Continue, Finish, HelperClose, HelperOpen, LateAccept, LeaderClose, LeaderFrontOpen,
    LeaderOpen, LeaderOpenTwo, LeaderTask, Start,
};
use super::{Case, JOB, NEXT, first_wrong};
use dap_bytes::{Node, Part};
use std::test::Fail;

const OPENS: [Case; 12] = [
    (
        &[LeaderOpen(2, 1), LeaderOpenTwo(2, 1), LeaderOpenTwo(2, 1)],
        None,
    ),
    (&[LeaderOpenTwo(2, 1), LeaderOpen(2, 1)], Some(1)),
    (&[LeaderOpen(2, 1), LeaderOpenTwo(2, 0)], Some(1)),
    (&[], None),
    (&[LeaderOpen(2, 1), LeaderOpen(2, 1)], None),
    (&[LeaderOpen(16, 1)], None),
    (&[LeaderOpen(17, 1)], Some(0)),
    (&[LeaderOpen(1, 1)], Some(0)),
    (&[LeaderOpen(2, 0)], Some(0)),
    (&[LeaderOpen(2, 1), LeaderOpen(4, 1)], Some(1)),
    (&[Accept(b'v', b'a')], Some(0)),
    (&[LeaderClose(b'v', 0), LeaderOpen(2, 1)], Some(0)),
];

const ACCEPTS: [Case; 4] = [
    (
        &[
            LeaderOpen(2, 1),
            Accept(b'v', b'a'),
            Accept(b'v', b'c'),
            Accept(b'w', b'a'),
        ],
        None,
    ),
    (&[LeaderOpen(2, 1), Accept(b'v', b'b')], Some(1)),
    (
        &[
            LeaderOpen(2, 1),
            Accept(b'v', b'a'),
            Accept(b'v', b'a'),
            Accept(b'v', b'a'),
        ],
        Some(2),
    ),
    (&[LeaderOpen(2, 1), LateAccept(b'v', b'a')], Some(1)),
];

const CONTINUES: [Case; 9] = [
    (
        &[
            LeaderOpen(2, 1),
            Accept(b'v', b'a'),
            Accept(b'v', b'c'),
            Accept(b'w', b'a'),
            Continue(b'v', JOB, b"a"),
            Continue(b'w', NEXT, b"a"),
            LeaderOpen(2, 1),
            Continue(b'v', (1, 2, 0), b"c"),
        ],
        None,
    ),
    (
        &[
            LeaderOpen(2, 1),
            Accept(b'v', b'a'),
            Continue(b'v', (0, 1, 0), b"a"),
        ],
        Some(2),
    ),
    (
        &[
            LeaderOpen(2, 1),
            Accept(b'v', b'a'),
            Continue(b'v', (1, 2, 0), b"a"),
        ],
        Some(2),
    ),
    (
        &[
            LeaderOpen(2, 1),
            Accept(b'v', b'a'),
            Accept(b'v', b'c'),
            Continue(b'v', JOB, b"a"),
            Continue(b'v', JOB, b"c"),
        ],
        Some(4),
    ),
    (
        &[
            LeaderOpen(2, 1),
            Accept(b'v', b'a'),
            Accept(b'w', b'a'),
            Continue(b'v', JOB, b"a"),
            Continue(b'w', JOB, b"a"),
        ],
        Some(4),
    ),
    (
        &[
            LeaderOpen(2, 1),
            Accept(b'v', b'a'),
            Continue(b'v', JOB, b"ac"),
        ],
        Some(2),
    ),
    (
        &[
            LeaderOpen(2, 1),
            Accept(b'w', b'a'),
            Continue(b'v', JOB, b"a"),
        ],
        Some(2),
    ),
    (
        &[
            LeaderOpen(2, 1),
            Accept(b'v', b'a'),
            Accept(b'v', b'c'),
            Continue(b'v', JOB, b"a"),
            Continue(b'v', NEXT, b"ac"),
        ],
        Some(4),
    ),
    (
        &[
            LeaderOpen(2, 1),
            Accept(b'v', b'a'),
            Accept(b'v', b'c'),
            Continue(b'v', JOB, b"ca"),
        ],
        Some(3),
    ),
];

const FINISHES: [Case; 8] = [
    (
        &[
            LeaderOpen(2, 1),
            Accept(b'v', b'a'),
            Accept(b'v', b'c'),
            Continue(b'v', JOB, b"ac"),
            Finish(JOB, b"a", b"c"),
        ],
        None,
    ),
    (&[LeaderOpen(2, 1), Finish(JOB, b"a", b"")], Some(1)),
    (
        &[
            LeaderOpen(2, 1),
            Accept(b'v', b'a'),
            Accept(b'v', b'c'),
            Continue(b'v', JOB, b"ac"),
            Finish(JOB, b"a", b""),
        ],
        Some(4),
    ),
    (
        &[
            LeaderOpen(2, 1),
            Accept(b'v', b'a'),
            Continue(b'v', JOB, b"a"),
            Finish(NEXT, b"a", b""),
        ],
        Some(3),
    ),
    (
        &[
            LeaderOpen(2, 1),
            Accept(b'v', b'a'),
            Continue(b'v', JOB, b"a"),
            Finish((1, 2, 0), b"a", b""),
        ],
        Some(3),
    ),
    (
        &[
            LeaderOpen(2, 1),
            Accept(b'v', b'a'),
            Continue(b'v', JOB, b"a"),
            Finish((0, 1, 0), b"a", b""),
        ],
        Some(3),
    ),
    (
        &[
            LeaderOpen(2, 1),
            Accept(b'v', b'a'),
            Continue(b'v', JOB, b"a"),
            Finish(JOB, b"c", b""),
        ],
        Some(3),
    ),
    (
        &[
            LeaderOpen(2, 1),
            Accept(b'v', b'a'),
            Continue(b'v', JOB, b"a"),
            Finish(JOB, b"a", b""),
            Finish(JOB, b"a", b""),
        ],
        Some(4),
    ),
];

const CLOSES: [Case; 2] = [
    (
        &[
            LeaderOpen(2, 1),
            LeaderClose(b'v', 0),
            LeaderClose(b'v', 60),
            LeaderClose(b'w', 0),
        ],
        None,
    ),
    (
        &[LeaderOpen(2, 1), LeaderClose(b'v', 0), LeaderClose(b'v', 0)],
        Some(2),
    ),
];

/// Records of other parts.
const OTHERS: [Case; 5] = [
    (&[HelperOpen(2, 1)], Some(0)),
    (&[LeaderOpen(2, 1), Start(JOB, b'v', b"a")], Some(1)),
    (&[LeaderOpen(2, 1), HelperClose(b'v', 0)], Some(1)),
    (&[LeaderOpen(2, 1), LeaderFrontOpen(2)], Some(1)),
    (&[LeaderOpen(2, 1), LeaderTask(b'v', 60)], Some(1)),
];

#[test]
fn a_leaders_lane_keeps_its_rules(rt: HostRuntime) -> Result<(), Fail> {
    let alloc = rt.alloc();
    assert_eq!(rt;
        first_wrong(alloc, Node::Leader, Part::Lane(1), &OPENS)?,
        None
    );
    assert_eq!(rt;
        first_wrong(alloc, Node::Leader, Part::Lane(1), &ACCEPTS)?,
        None
    );
    assert_eq!(rt;
        first_wrong(alloc, Node::Leader, Part::Lane(1), &CONTINUES)?,
        None
    );
    assert_eq!(rt;
        first_wrong(alloc, Node::Leader, Part::Lane(1), &FINISHES)?,
        None
    );
    assert_eq!(rt;
        first_wrong(alloc, Node::Leader, Part::Lane(1), &CLOSES)?,
        None
    );
    assert_eq!(rt;
        first_wrong(alloc, Node::Leader, Part::Lane(1), &OTHERS)?,
        None
    );
    Ok(())
}
