//! Journals of fronts.

use super::made::{
    Ask, AskWide, HelperAnswer, HelperAnswerWide, HelperFrontOpen, HelperFrontOpenTwo, HelperTask,
    HelperTaskOf, HelperTaskTwo, LeaderAnswer, LeaderAnswerWide, LeaderFrontOpen,
    LeaderFrontOpenTwo, LeaderTask, LeaderTaskTwo, Mismatched, Others, Small,
};
use super::{Case, first_wrong};
use dap_bytes::{Node, Part};
use std::test::Fail;

const LEADER_FRONT: [Case; 28] = [
    (
        &[
            LeaderFrontOpen(2),
            LeaderTask(b'v', 60),
            LeaderTask(b'w', 60),
            AskWide(b'v', 120, 3),
            AskWide(b'v', 0, 2),
            Ask(b'v', 300),
            AskWide(b'w', 120, 64),
            LeaderAnswerWide(b'v', 120, 3),
        ],
        None,
    ),
    (
        &[
            LeaderFrontOpen(2),
            LeaderTask(b'v', 60),
            AskWide(b'v', 120, 3),
            AskWide(b'v', 0, 3),
        ],
        Some(3),
    ),
    (
        &[
            LeaderFrontOpen(2),
            LeaderTask(b'v', 60),
            AskWide(b'v', 120, 3),
            Ask(b'v', 240),
        ],
        Some(3),
    ),
    (
        &[
            LeaderFrontOpen(2),
            LeaderTask(b'v', 60),
            AskWide(b'v', 120, 3),
            LeaderAnswer(b'v', 120),
        ],
        Some(3),
    ),
    (
        &[
            LeaderFrontOpen(2),
            LeaderTask(b'v', 1_000_000_000),
            Ask(b'v', 999_999_999_000_000_000),
            AskWide(b'v', 999_999_998_000_000_000, 2),
        ],
        Some(3),
    ),
    (
        &[
            LeaderFrontOpen(2),
            LeaderTask(b'v', 1_000_000_000),
            AskWide(b'v', 999_999_999_000_000_000, 2),
        ],
        Some(2),
    ),
    (
        &[
            LeaderFrontOpen(2),
            LeaderFrontOpenTwo(2),
            LeaderTaskTwo(b'v', 60),
        ],
        None,
    ),
    (&[LeaderFrontOpenTwo(2), LeaderTask(b'v', 60)], Some(1)),
    (&[LeaderFrontOpen(2), LeaderTaskTwo(b'v', 60)], Some(1)),
    (&[LeaderFrontOpenTwo(2), LeaderFrontOpen(2)], Some(1)),
    (
        &[
            LeaderFrontOpen(16),
            LeaderTask(b'v', 60),
            LeaderTask(b'w', 7),
            LeaderFrontOpen(16),
            Ask(b'v', 60),
            Ask(b'v', 0),
            Ask(b'w', 0),
            LeaderAnswer(b'v', 0),
            LeaderAnswer(b'w', 0),
        ],
        None,
    ),
    (&[LeaderFrontOpen(0)], Some(0)),
    (&[LeaderFrontOpen(17)], Some(0)),
    (&[LeaderFrontOpen(2), LeaderFrontOpen(1)], Some(1)),
    (&[LeaderTask(b'v', 60)], Some(0)),
    (
        &[
            LeaderFrontOpen(2),
            LeaderTask(b'v', 60),
            LeaderTask(b'v', 7),
        ],
        Some(2),
    ),
    (
        &[LeaderFrontOpen(2), LeaderTask(b'w', 60), Ask(b'v', 0)],
        Some(2),
    ),
    (
        &[LeaderFrontOpen(2), LeaderTask(b'v', 60), Ask(b'v', 30)],
        Some(2),
    ),
    (
        &[
            LeaderFrontOpen(2),
            LeaderTask(b'v', 60),
            Ask(b'v', 0),
            Ask(b'v', 0),
        ],
        Some(3),
    ),
    (
        &[
            LeaderFrontOpen(2),
            LeaderTask(b'v', 60),
            Ask(b'v', 0),
            LeaderAnswer(b'v', 60),
        ],
        Some(3),
    ),
    (
        &[
            LeaderFrontOpen(2),
            LeaderTask(b'v', 60),
            Ask(b'v', 0),
            LeaderAnswer(b'v', 0),
            LeaderAnswer(b'v', 0),
        ],
        Some(4),
    ),
    (
        &[
            LeaderFrontOpen(2),
            LeaderTask(b'v', 60),
            LeaderTask(b'w', 60),
            Ask(b'v', 0),
            LeaderAnswer(b'w', 0),
        ],
        Some(4),
    ),
    (&[LeaderFrontOpen(2), LeaderAnswer(b'v', 0)], Some(1)),
    (
        &[
            LeaderFrontOpen(2),
            LeaderTask(b'v', 60),
            Ask(b'v', 120),
            LeaderAnswerWide(b'v', 120, 2),
        ],
        Some(3),
    ),
    (
        &[
            LeaderFrontOpen(2),
            LeaderTask(b'v', 60),
            AskWide(b'v', 0, 64),
            Ask(b'v', 3840),
            Ask(b'v', 3780),
        ],
        Some(4),
    ),
    (&[LeaderFrontOpen(2), HelperTask(b'v', 1)], Some(1)),
    (&[LeaderFrontOpen(2), LeaderTask(b'v', 0)], Some(1)),
    (
        &[
            LeaderFrontOpen(2),
            LeaderTask(b'v', 1),
            Ask(b'v', 1_000_000_000_000_000_000),
        ],
        Some(2),
    ),
];

const HELPER_FRONT: [Case; 30] = [
    (
        &[
            HelperFrontOpen(2),
            HelperTask(b'v', 2),
            HelperTask(b'w', 2),
            HelperAnswerWide(b'v', 0, 3, 2),
            HelperAnswer(b'v', 180, 2),
            HelperAnswer(b'w', 0, 2),
        ],
        None,
    ),
    (
        &[
            HelperFrontOpen(2),
            HelperTask(b'v', 2),
            HelperAnswerWide(b'v', 0, 3, 2),
            HelperAnswer(b'v', 120, 2),
        ],
        Some(3),
    ),
    (
        &[
            HelperFrontOpen(2),
            HelperTask(b'v', 2),
            HelperAnswer(b'v', 120, 2),
            HelperAnswerWide(b'v', 0, 3, 2),
        ],
        Some(3),
    ),
    (
        &[
            HelperFrontOpen(2),
            HelperTask(b'v', 2),
            HelperAnswer(b'v', 30, 2),
        ],
        Some(2),
    ),
    (
        &[
            HelperFrontOpen(2),
            HelperTask(b'v', 1),
            HelperFrontOpenTwo(2),
            HelperTaskTwo(b'v', 1),
        ],
        None,
    ),
    (
        &[
            HelperFrontOpen(2),
            HelperFrontOpenTwo(2),
            HelperTask(b'v', 1),
        ],
        Some(2),
    ),
    (&[HelperFrontOpen(2), HelperTaskTwo(b'v', 1)], Some(1)),
    (
        &[
            HelperFrontOpen(2),
            HelperTask(b'v', 3),
            HelperTask(b'v', 2),
            HelperTask(b'w', 9),
            HelperAnswer(b'v', 0, 2),
            HelperAnswer(b'v', 60, 3),
            HelperAnswer(b'w', 0, 9),
        ],
        None,
    ),
    (
        &[
            HelperFrontOpen(2),
            HelperTask(b'v', 1),
            HelperAnswerWide(b'v', 60, 2, 1),
            HelperTaskOf(b'v', 30),
            HelperAnswer(b'v', 120, 1),
        ],
        None,
    ),
    (
        &[
            HelperFrontOpen(2),
            HelperTask(b'v', 1),
            HelperAnswerWide(b'v', 60, 2, 1),
            HelperTaskOf(b'v', 30),
            HelperAnswer(b'v', 90, 1),
        ],
        Some(4),
    ),
    (&[], None),
    (&[HelperFrontOpen(16), HelperFrontOpen(16)], None),
    (&[HelperFrontOpen(1)], None),
    (&[HelperFrontOpen(0)], Some(0)),
    (&[HelperFrontOpen(17)], Some(0)),
    (&[HelperFrontOpen(2), HelperFrontOpen(1)], Some(1)),
    (&[HelperFrontOpenTwo(2), HelperFrontOpen(2)], Some(1)),
    (&[HelperTask(b'v', 1)], Some(0)),
    (
        &[
            HelperFrontOpen(2),
            HelperTask(b'v', 3),
            HelperAnswer(b'v', 0, 2),
        ],
        Some(2),
    ),
    (
        &[
            HelperFrontOpen(2),
            HelperTask(b'w', 2),
            HelperAnswer(b'v', 0, 2),
        ],
        Some(2),
    ),
    (
        &[
            HelperFrontOpen(2),
            HelperTask(b'v', 2),
            HelperTask(b'v', 3),
            HelperAnswer(b'v', 0, 2),
        ],
        Some(3),
    ),
    (
        &[
            HelperFrontOpen(2),
            HelperTask(b'v', 2),
            Mismatched((b'v', 0, 1), (b'w', 0, 1)),
        ],
        Some(2),
    ),
    (
        &[
            HelperFrontOpen(2),
            HelperTask(b'v', 2),
            Mismatched((b'v', 0, 1), (b'v', 60, 1)),
        ],
        Some(2),
    ),
    (
        &[HelperFrontOpen(2), HelperTask(b'v', 2), Small(b'v', 0)],
        Some(2),
    ),
    (
        &[HelperFrontOpen(2), HelperTask(b'v', 2), Others(b'v', 0)],
        Some(2),
    ),
    (
        &[
            HelperFrontOpen(2),
            HelperTask(b'v', 2),
            Mismatched((b'v', 0, 1), (b'v', 0, 2)),
        ],
        Some(2),
    ),
    (&[HelperFrontOpen(2), LeaderFrontOpen(2)], Some(1)),
    (
        &[
            HelperFrontOpen(2),
            HelperTask(b'v', 2),
            HelperAnswer(b'v', 0, 2),
            HelperAnswer(b'v', 0, 3),
        ],
        Some(3),
    ),
    (&[HelperFrontOpen(2), LeaderTask(b'v', 60)], Some(1)),
    (&[HelperFrontOpen(2), HelperTask(b'v', 0)], Some(1)),
];

#[test]
fn the_leaders_front_keeps_its_rules(rt: HostRuntime) -> Result<(), Fail> {
    let alloc = rt.alloc();
    assert_eq!(rt;
        first_wrong(alloc, Node::Leader, Part::Front, &LEADER_FRONT)?,
        None
    );
    Ok(())
}

#[test]
fn the_helpers_front_keeps_its_rules(rt: HostRuntime) -> Result<(), Fail> {
    let alloc = rt.alloc();
    assert_eq!(rt;
        first_wrong(alloc, Node::Helper, Part::Front, &HELPER_FRONT)?,
        None
    );
    Ok(())
}
