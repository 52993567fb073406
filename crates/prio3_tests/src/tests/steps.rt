use dap_bytes::Id;
use field_laws::Field;
use flp_circuits::Circuit;
use prio3_prep::{State, combine, finish, init};
use prio3_share::shard_input;
use std::alloc::{AllocError, Global};
use std::process::Abort;
use std::test::Fail;
use vdaf_api::{PrepFault, Role};

pub(super) const ID: Id = [0, 1, 2, 3, 4, 5, 6, 7, 8, 9, 10, 11, 12, 13, 14, 15];

const KEY: [u8; 16] = [
    16, 17, 18, 19, 20, 21, 22, 23, 24, 25, 26, 27, 28, 29, 30, 31,
];

/// The shares of a report and what its steps give, in hex digits.
#[derive(Clone, Copy)]
pub struct Steps<'a> {
    pub public: &'a str,
    pub leader: &'a str,
    pub helper: &'a str,
    pub leader_share: &'a str,
    pub helper_share: &'a str,
    pub message: &'a str,
    pub leader_out: &'a str,
    pub helper_out: &'a str,
}

/// Where a report is refused.
#[derive(Clone, Copy, Debug, PartialEq, Eq)]
pub enum Stage {
    Init,
    Combine,
    Finish,
    Prepared,
}

/// The shares of a report as bytes.
#[derive(Drop)]
struct Report {
    public: Vec<u8>,
    leader: Vec<u8>,
    helper: Vec<u8>,
}

fn report_of(alloc: Global, steps: &Steps) -> Result<Report, Fail> {
    Ok(Report {
        public: hex::decode(alloc, steps.public)?,
        leader: hex::decode(alloc, steps.leader)?,
        helper: hex::decode(alloc, steps.helper)?,
    })
}

fn check_bytes(rt: &impl Abort, alloc: Global, got: &[u8], want: &str) -> Result<(), Fail> {
    let text = hex::encode(alloc, got)?;
    assert_eq!(rt; text.as_str(), want);
    Ok(())
}

fn check_stage(rt: &impl Abort, got: Stage, want: Stage) {
    assert_eq!(rt; got, want);
}

/// Each step of the report gives what it has to.
pub(super) fn check_steps<C: Circuit>(
    rt: &impl Abort,
    alloc: Global,
    c: &C,
    kind: u8,
    steps: &Steps,
) -> Result<(), Fail> {
    let report = report_of(alloc, steps)?;
    let (leader, leader_share) = init(
        alloc,
        c,
        kind,
        Role::Leader,
        &KEY,
        &ID,
        &report.public,
        &report.leader,
    )?;
    let (helper, helper_share) = init(
        alloc,
        c,
        kind,
        Role::Helper,
        &KEY,
        &ID,
        &report.public,
        &report.helper,
    )?;
    check_bytes(rt, alloc, &leader_share, steps.leader_share)?;
    check_bytes(rt, alloc, &helper_share, steps.helper_share)?;
    let message = combine(alloc, c, kind, &leader_share, &helper_share)?;
    check_bytes(rt, alloc, &message, steps.message)?;
    let leader_out = finish(alloc, &leader, &message)?;
    check_bytes(rt, alloc, &leader_out, steps.leader_out)?;
    let helper_out = finish(alloc, &helper, &message)?;
    check_bytes(rt, alloc, &helper_out, steps.helper_out)
}

/// Whether the call has no value; any other fault is the caller's.
pub(super) fn is_invalid<T: Drop>(answer: Result<T, PrepFault>) -> Result<bool, PrepFault> {
    match answer {
        Ok(_) => Ok(false),
        Err(PrepFault::Invalid) => Ok(true),
        Err(fault) => Err(fault),
    }
}

/// The stage at which a report is refused.
fn stage_of<C: Circuit>(
    alloc: Global,
    c: &C,
    kind: u8,
    public: &[u8],
    leader: &[u8],
    helper: &[u8],
) -> Result<Stage, PrepFault> {
    if is_invalid(init(alloc, c, kind, Role::Leader, &KEY, &ID, public, leader))? {
        return Ok(Stage::Init);
    }
    if is_invalid(init(alloc, c, kind, Role::Helper, &KEY, &ID, public, helper))? {
        return Ok(Stage::Init);
    }
    let (state, leader_share) = init(alloc, c, kind, Role::Leader, &KEY, &ID, public, leader)?;
    let (_, helper_share) = init(alloc, c, kind, Role::Helper, &KEY, &ID, public, helper)?;
    stage_after(alloc, c, kind, &state, &leader_share, &helper_share)
}

/// The stage at which two prep shares are refused.
fn stage_after<C: Circuit>(
    alloc: Global,
    c: &C,
    kind: u8,
    state: &State,
    leader_share: &[u8],
    helper_share: &[u8],
) -> Result<Stage, PrepFault> {
    if is_invalid(combine(alloc, c, kind, leader_share, helper_share))? {
        return Ok(Stage::Combine);
    }
    let message = combine(alloc, c, kind, leader_share, helper_share)?;
    if is_invalid(finish(alloc, state, &message))? {
        return Ok(Stage::Finish);
    }
    Ok(Stage::Prepared)
}

/// The bytes with another lowest bit at a place.
fn flipped(alloc: Global, bytes: &[u8], place: usize) -> Result<Vec<u8>, AllocError> {
    let mut changed = Vec::new(alloc);
    for (i, byte) in bytes.iter().enumerate() {
        changed.push(if i == place { *byte ^ 1 } else { *byte })?;
    }
    Ok(changed)
}

/// The bytes with others at a place.
fn with_bytes(
    alloc: Global,
    bytes: &[u8],
    place: usize,
    others: &[u8],
) -> Result<Vec<u8>, AllocError> {
    let mut changed = Vec::new(alloc);
    for byte in bytes.iter().take(place) {
        changed.push(*byte)?;
    }
    changed.extend_from_slice(others)?;
    for byte in bytes.iter().skip(changed.len()) {
        changed.push(*byte)?;
    }
    Ok(changed)
}

/// A byte more than these, a byte fewer, and none.
fn other_lengths(alloc: Global, bytes: &[u8]) -> Result<[Vec<u8>; 3], AllocError> {
    let mut longer = bytes.to_vec(alloc)?;
    longer.push(0)?;
    let mut shorter = bytes.to_vec(alloc)?;
    let _ = shorter.pop();
    Ok([longer, shorter, Vec::new(alloc)])
}

/// A changed byte in any part of the report is refused when the prep shares are combined.
pub(super) fn check_changed_bytes<C: Circuit>(
    rt: &impl Abort,
    alloc: Global,
    c: &C,
    kind: u8,
    steps: &Steps,
) -> Result<(), Fail> {
    let report = report_of(alloc, steps)?;
    let (public, leader, helper) = (&report.public, &report.leader, &report.helper);
    for place in (0..leader.len()).step_by(8) {
        let other = flipped(alloc, leader, place)?;
        let stage = stage_of(alloc, c, kind, public, &other, helper)?;
        check_stage(rt, stage, Stage::Combine);
    }
    for place in (0..helper.len()).step_by(8) {
        let other = flipped(alloc, helper, place)?;
        let stage = stage_of(alloc, c, kind, public, leader, &other)?;
        check_stage(rt, stage, Stage::Combine);
    }
    for place in (0..public.len()).step_by(8) {
        let other = flipped(alloc, public, place)?;
        let stage = stage_of(alloc, c, kind, &other, leader, helper)?;
        check_stage(rt, stage, Stage::Combine);
    }
    Ok(())
}

/// A part of another length is refused at once, and so is an element that isn't below the modulus, whose bytes are
/// those of `modulus` here, at each place of an element.
pub(super) fn check_inits<C: Circuit>(
    rt: &impl Abort,
    alloc: Global,
    c: &C,
    kind: u8,
    steps: &Steps,
    modulus: &str,
) -> Result<(), Fail> {
    let report = report_of(alloc, steps)?;
    let (public, leader, helper) = (&report.public, &report.leader, &report.helper);
    for other in other_lengths(alloc, public)? {
        if other.len() != public.len() {
            let stage = stage_of(alloc, c, kind, &other, leader, helper)?;
            check_stage(rt, stage, Stage::Init);
        }
    }
    for other in other_lengths(alloc, leader)? {
        let stage = stage_of(alloc, c, kind, public, &other, helper)?;
        check_stage(rt, stage, Stage::Init);
    }
    for other in other_lengths(alloc, helper)? {
        let stage = stage_of(alloc, c, kind, public, leader, &other)?;
        check_stage(rt, stage, Stage::Init);
    }
    let spelled = hex::decode(alloc, modulus)?;
    let elements = leader.len().saturating_sub(joint_len(public));
    for place in (0..elements).step_by(spelled.len().max(1)) {
        let other = with_bytes(alloc, leader, place, &spelled)?;
        let stage = stage_of(alloc, c, kind, public, &other, helper)?;
        check_stage(rt, stage, Stage::Init);
    }
    Ok(())
}

/// How many bytes a blind and a part have in a report with this public share.
fn joint_len(public: &[u8]) -> usize {
    public.len() / 2
}

/// Prep shares of another length or with the modulus as an element are refused, and so is another message than the
/// state's.
pub(super) fn check_joining<C: Circuit>(
    rt: &impl Abort,
    alloc: Global,
    c: &C,
    kind: u8,
    steps: &Steps,
    modulus: &str,
) -> Result<(), Fail> {
    let report = report_of(alloc, steps)?;
    let (state, share) = init(
        alloc,
        c,
        kind,
        Role::Leader,
        &KEY,
        &ID,
        &report.public,
        &report.leader,
    )?;
    let theirs = hex::decode(alloc, steps.helper_share)?;
    let stage = stage_after(alloc, c, kind, &state, &share, &theirs)?;
    check_stage(rt, stage, Stage::Prepared);
    for other in other_lengths(alloc, &theirs)? {
        let stage = stage_after(alloc, c, kind, &state, &share, &other)?;
        check_stage(rt, stage, Stage::Combine);
        let stage = stage_after(alloc, c, kind, &state, &other, &theirs)?;
        check_stage(rt, stage, Stage::Combine);
    }
    let spelled = hex::decode(alloc, modulus)?;
    let elements = share.len().saturating_sub(joint_len(&report.public));
    for place in (0..elements).step_by(spelled.len().max(1)) {
        let large = with_bytes(alloc, &theirs, place, &spelled)?;
        let stage = stage_after(alloc, c, kind, &state, &share, &large)?;
        check_stage(rt, stage, Stage::Combine);
        let large = with_bytes(alloc, &share, place, &spelled)?;
        let stage = stage_after(alloc, c, kind, &state, &large, &theirs)?;
        check_stage(rt, stage, Stage::Combine);
    }
    let message = hex::decode(alloc, steps.message)?;
    for other in other_lengths(alloc, &message)? {
        if other.len() != message.len() {
            assert!(rt; is_invalid(finish(alloc, &state, &other))?);
        }
    }
    for place in 0..message.len() {
        let other = flipped(alloc, &message, place)?;
        assert!(rt; is_invalid(finish(alloc, &state, &other))?);
    }
    Ok(())
}

/// Another part in a prep share is refused by the states.
pub(super) fn check_other_part<C: Circuit>(
    rt: &impl Abort,
    alloc: Global,
    c: &C,
    kind: u8,
    steps: &Steps,
) -> Result<(), Fail> {
    let report = report_of(alloc, steps)?;
    let (state, share) = init(
        alloc,
        c,
        kind,
        Role::Leader,
        &KEY,
        &ID,
        &report.public,
        &report.leader,
    )?;
    let theirs = hex::decode(alloc, steps.helper_share)?;
    for place in [48, 63] {
        let changed = flipped(alloc, &theirs, place)?;
        let stage = stage_after(alloc, c, kind, &state, &share, &changed)?;
        check_stage(rt, stage, Stage::Finish);
        let changed = flipped(alloc, &share, place)?;
        let stage = stage_after(alloc, c, kind, &state, &changed, &theirs)?;
        check_stage(rt, stage, Stage::Finish);
    }
    Ok(())
}

/// Another half of the input, whose own part stands in the public share, is refused by the decision.
pub(super) fn check_forged<C: Circuit>(
    rt: &impl Abort,
    alloc: Global,
    c: &C,
    kind: u8,
    steps: &Steps,
) -> Result<(), Fail> {
    let report = report_of(alloc, steps)?;
    let leader = flipped(alloc, &report.leader, 0)?;
    let (_, share) = init(
        alloc,
        c,
        kind,
        Role::Leader,
        &KEY,
        &ID,
        &report.public,
        &leader,
    )?;
    let mut part = Vec::new(alloc);
    for byte in share.iter().skip(share.len().saturating_sub(16)) {
        part.push(*byte)?;
    }
    let public = with_bytes(alloc, &report.public, 0, &part)?;
    let stage = stage_of(alloc, c, kind, &public, &leader, &report.helper)?;
    check_stage(rt, stage, Stage::Combine);
    Ok(())
}

/// A report of an input of these numbers, whether or not it is an encoding, is refused at this stage.
pub(super) fn check_input<C: Circuit>(
    rt: &impl Abort,
    alloc: Global,
    c: &C,
    kind: u8,
    numbers: &[u128],
    wanted: Stage,
) -> Result<(), Fail> {
    let mut x = Vec::new(alloc);
    for number in numbers {
        x.push(C::F::of(*number))?;
    }
    assert_eq!(rt; x.len(), c.input_len());
    let shares = shard_input(alloc, c, kind, &ID, &x, &KEY)?;
    let (leader, helper) = (shares.leader.as_slice(), shares.helper.as_slice());
    let stage = stage_of(alloc, c, kind, shares.public.as_slice(), leader, helper)?;
    check_stage(rt, stage, wanted);
    Ok(())
}
