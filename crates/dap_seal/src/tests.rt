use super::*;
use dap_bytes::{Bytes, Name};
use dap_messages::{Code, Step};
use dap_tasks::{Task, Tasks, trial};
use dap_views::{PartView, view_request};
use std::alloc::{AllocError, Global};
use std::process::Abort;
use std::test::Fail;
use vdaf_api::{Kind, Role, ShardFault, Step as Prepared, Toy};

const ID: [u8; 16] = [0, 0, 0, 0, 0, 0, 0, 0, 0, 0, 0, 0, 0, 0, 0, 1];

/// The bytes 0 to 47, sealed with the leader's keys of the trial task `v` under a head with the identifier above, the
/// time 10 and the public share 1, 2, 3.
const SEALED: [u8; 64] = [
    0x33, 0x7d, 0x5a, 0x2d, 0x84, 0xb6, 0x34, 0xc9, 0x2f, 0x2e, 0xd6, 0x0f, 0x20, 0xf1, 0x29, 0x56,
    0xbc, 0xb8, 0xa6, 0xff, 0x42, 0x40, 0x28, 0xde, 0x08, 0x8d, 0x33, 0x4b, 0x3d, 0x76, 0x6b, 0xc2,
    0xea, 0xb3, 0xd5, 0xb9, 0x22, 0x96, 0x41, 0x0f, 0x52, 0x0a, 0x9f, 0xb1, 0x92, 0x9b, 0x87, 0xab,
    0x95, 0xfb, 0x22, 0x93, 0xb2, 0xbb, 0x9f, 0x93, 0xe3, 0xf4, 0x70, 0x74, 0x62, 0x40, 0xd4, 0x7a,
];

/// The report of the measurement 7 as two numbers that add to it modulo 2^64, the helper's being the first 8 bytes of
/// the seed 0 to 15.
const REPORT: [u8; 88] = [
    0x01, 0x76, 0x00, 0x00, 0x00, 0x00, 0x00, 0x00, 0x00, 0x00, 0x00, 0x00, 0x00, 0x00, 0x00, 0x00,
    0x00, 0x01, 0x00, 0x00, 0x00, 0x00, 0x00, 0x00, 0x00, 0x0a, 0x00, 0x00, 0x00, 0x00, 0x00, 0x00,
    0x00, 0x00, 0x00, 0x18, 0x34, 0x83, 0xa5, 0xd2, 0x7b, 0x49, 0xcb, 0x36, 0x66, 0xcc, 0xf7, 0x58,
    0x43, 0x10, 0x7d, 0x6b, 0xa1, 0x01, 0xd2, 0xf0, 0x04, 0xb5, 0x92, 0x16, 0x00, 0x00, 0x00, 0x18,
    0x3d, 0xba, 0x31, 0xcd, 0x1e, 0xa6, 0x20, 0x67, 0xae, 0xdd, 0x77, 0xfe, 0x0e, 0x45, 0xc2, 0x14,
    0xbf, 0xdc, 0x44, 0x05, 0xf3, 0x46, 0xff, 0x65,
];

/// The request of the job 0, 1, 0 for the task `v`, of one report with the identifier zero, the time 10 and empty shares.
const REQUEST: [u8; 54] = [
    0x01, 0x00, 0x00, 0x00, 0x00, 0x00, 0x00, 0x00, 0x00, 0x01, 0x00, 0x00, 0x00, 0x00, 0x00, 0x00,
    0x00, 0x00, 0x01, 0x76, 0x00, 0x01, 0x00, 0x00, 0x00, 0x00, 0x00, 0x00, 0x00, 0x00, 0x00, 0x00,
    0x00, 0x00, 0x00, 0x00, 0x00, 0x00, 0x00, 0x00, 0x00, 0x00, 0x00, 0x00, 0x00, 0x0a, 0x00, 0x00,
    0x00, 0x00, 0x00, 0x00, 0x00, 0x00,
];

#[test]
fn what_was_sealed_is_opened(rt: HostRuntime) -> Result<(), Fail> {
    let alloc = rt.alloc();
    let name = Name::new(b"v").expect(&rt, "a name");
    let task = trial(name, Kind::Count, 3, 3600, None);
    let head = Head {
        name,
        id: ID,
        time: 10,
        public: Bytes::new([1, 2, 3].to_vec(alloc)?),
    };
    let mut plain = [0; 48];
    for i in 0..48 {
        plain[i] = i as u8;
    }
    let leader = CmacSeal::new(&task.leader, Role::Leader);
    let mut sealed = leader.seal(alloc, &head, &plain)?;
    assert_eq!(rt; sealed.as_slice(), SEALED.as_slice());
    let opened = leader.open(alloc, &head, &sealed)?;
    assert_eq!(rt; opened.as_slice(), plain.as_slice());
    let helper = CmacSeal::new(&task.helper, Role::Helper);
    assert!(rt; matches!(helper.open(alloc, &head, &sealed), Err(OpenFault::Tag)));
    assert!(rt;
        matches!(
            leader.open(alloc, &head, &SEALED[..15]),
            Err(OpenFault::Tag)
        )
    );
    assert_eq!(rt; sealed.len(), 64);
    sealed[20] ^= 1;
    assert!(rt; matches!(leader.open(alloc, &head, &sealed), Err(OpenFault::Tag)));
    Ok(())
}

#[test]
fn an_honest_report_is_spelled(rt: HostRuntime) -> Result<(), Fail> {
    let alloc = rt.alloc();
    let name = Name::new(b"v").expect(&rt, "a name");
    let task = trial(name, Kind::Count, 3, 3600, None);
    let seed = [0, 1, 2, 3, 4, 5, 6, 7, 8, 9, 10, 11, 12, 13, 14, 15];
    let report = make_report(alloc, &task, &Toy {}, &ID, 10, 7, &seed)?;
    assert_eq!(rt; report.as_slice(), REPORT.as_slice());
    let too_large = make_report(alloc, &task, &Toy {}, &ID, 10, 4_294_967_296, &seed);
    assert!(rt; matches!(too_large, Err(ShardFault::BadValue)));
    Ok(())
}

#[test]
fn an_honest_report_of_a_list_of_one_is_that_of_its_number(rt: HostRuntime) -> Result<(), Fail> {
    let alloc = rt.alloc();
    let task = count_task(&rt);
    let seed = [0, 1, 2, 3, 4, 5, 6, 7, 8, 9, 10, 11, 12, 13, 14, 15];
    let report = make_list_report(alloc, &task, &Toy {}, &ID, 10, &[7], &seed)?;
    assert_eq!(rt; report.as_slice(), REPORT.as_slice());
    let others: [&[u64]; 3] = [&[], &[7, 0], &[4_294_967_296]];
    for other in others {
        let report = make_list_report(alloc, &task, &Toy {}, &ID, 10, other, &seed);
        assert!(rt; matches!(report, Err(ShardFault::BadValue)));
    }
    Ok(())
}

/// The task `v` of the report above.
fn count_task(rt: &impl Abort) -> Task {
    trial(
        Name::new(b"v").expect(rt, "a name"),
        Kind::Count,
        3,
        3600,
        None,
    )
}

/// The head of the report above.
fn head_of_one(rt: &impl Abort, alloc: Global) -> Head {
    Head {
        name: Name::new(b"v").expect(rt, "a name"),
        id: ID,
        time: 10,
        public: Bytes::new(Vec::new(alloc)),
    }
}

/// The leader's and the helper's half of the report above.
fn halves<'a>(task: &'a Task, head: &'a Head) -> (SealedHalf<'a>, SealedHalf<'a>) {
    (
        SealedHalf::of_leader(task, head, &REPORT[36..60]),
        SealedHalf::of_helper(task, head, &REPORT[64..]),
    )
}

/// A prep share or prep message of these bytes.
fn goes_on(alloc: Global, bytes: &[u8]) -> Result<Step, AllocError> {
    Ok(Step::Continued(Bytes::new(bytes.to_vec(alloc)?)))
}

/// Whether a step goes on with no bytes.
fn is_empty(step: &Step) -> bool {
    matches!(step, Step::Continued(bytes) if bytes.is_empty())
}

#[test]
fn the_helpers_half_is_prepared(rt: HostRuntime) -> Result<(), Fail> {
    let alloc = rt.alloc();
    let task = count_task(&rt);
    let head = head_of_one(&rt, alloc);
    let (leader, helper) = halves(&task, &head);
    let vdaf = Toy {};
    let empty = Prepared::Continued(Bytes::new(Vec::new(alloc)));
    assert!(rt; helper.helper_step(alloc, &vdaf)? == empty);
    assert!(rt; leader.helper_step(alloc, &vdaf)? == Prepared::Failed(4));
    let out = helper.helper_outcome(alloc, &vdaf, &goes_on(alloc, b"")?)?;
    assert!(rt;
        matches!(&out, Ok(bytes) if bytes.as_slice() == [0, 1, 2, 3, 4, 5, 6, 7].as_slice())
    );
    let out = helper.helper_outcome(alloc, &vdaf, &goes_on(alloc, b"x")?)?;
    assert!(rt; matches!(&out, Err(Code::VdafPrepError)));
    let replayed = Step::Failed(Code::ReportReplayed);
    let out = helper.helper_outcome(alloc, &vdaf, &replayed)?;
    assert!(rt; matches!(&out, Err(Code::ReportReplayed)));
    let out = leader.helper_outcome(alloc, &vdaf, &replayed)?;
    assert!(rt; matches!(&out, Err(Code::HpkeDecryptError)));
    Ok(())
}

#[test]
fn the_leaders_half_is_prepared(rt: HostRuntime) -> Result<(), Fail> {
    let alloc = rt.alloc();
    let task = count_task(&rt);
    let head = head_of_one(&rt, alloc);
    let (leader, helper) = halves(&task, &head);
    let vdaf = Toy {};
    let step = goes_on(alloc, b"")?;
    assert!(rt; is_empty(&leader.leader_item(alloc, &vdaf, &step)?));
    let replayed = Step::Failed(Code::ReportReplayed);
    let item = leader.leader_item(alloc, &vdaf, &replayed)?;
    assert!(rt; matches!(&item, Step::Failed(Code::ReportReplayed)));
    let item = helper.leader_item(alloc, &vdaf, &step)?;
    assert!(rt; matches!(&item, Step::Failed(Code::HpkeDecryptError)));
    let item = leader.leader_item(alloc, &vdaf, &goes_on(alloc, b"x")?)?;
    assert!(rt; matches!(&item, Step::Failed(Code::VdafPrepError)));
    for (half, item, share) in [
        (
            leader,
            goes_on(alloc, b"")?,
            [7, 0xff, 0xfd, 0xfc, 0xfb, 0xfa, 0xf9, 0xf8],
        ),
        (leader, goes_on(alloc, b"x")?, [0; 8]),
        (leader, Step::Failed(Code::VdafPrepError), [0; 8]),
        (helper, goes_on(alloc, b"")?, [0; 8]),
    ] {
        let given = half.leader_share(alloc, &vdaf, &item)?;
        assert_eq!(rt; given.as_slice(), share.as_slice());
    }
    Ok(())
}

#[test]
fn steps_are_told_by_their_codes(rt: HostRuntime) -> Result<(), Fail> {
    let alloc = rt.alloc();
    assert!(rt;
        matches!(
            told(Prepared::Failed(0)),
            Step::Failed(Code::BatchCollected)
        )
    );
    assert!(rt;
        matches!(
            told(Prepared::Failed(1)),
            Step::Failed(Code::ReportReplayed)
        )
    );
    assert!(rt;
        matches!(
            told(Prepared::Failed(4)),
            Step::Failed(Code::HpkeDecryptError)
        )
    );
    assert!(rt; matches!(told(Prepared::Failed(5)), Step::Failed(Code::VdafPrepError)));
    assert!(rt; matches!(told(Prepared::Failed(3)), Step::Failed(Code::VdafPrepError)));
    let share = Prepared::Continued(Bytes::new(b"abc".to_vec(alloc)?));
    let step = told(share);
    assert!(rt; matches!(&step, Step::Continued(bytes) if bytes.as_slice() == b"abc".as_slice()));
    Ok(())
}

#[test]
fn parts_of_requests_are_prepared(rt: HostRuntime) -> Result<(), Fail> {
    let alloc = rt.alloc();
    let name = Name::new(b"v").expect(&rt, "a name");
    let mut tasks: Tasks<Toy> = Tasks::new(alloc);
    if tasks
        .push(alloc, trial(name, Kind::Count, 3, 3600, None))
        .is_err()
    {
        return Err("no memory".into());
    }
    if tasks.find(&name).is_none() {
        return Err("no task".into());
    }
    let mut request = view_request(&REQUEST).map_err(|_| "a request")?;
    let Some(part) = request.next() else {
        return Err("no part".into());
    };
    assert!(rt; prepare_part(alloc, &tasks, &name, &part)? == Prepared::Failed(4));
    for (helper, step) in [
        (&REPORT[64..79], Prepared::Failed(4)),
        (
            &REPORT[64..],
            Prepared::Continued(Bytes::new(Vec::new(alloc))),
        ),
        (&REPORT[36..60], Prepared::Failed(4)),
    ] {
        let part = PartView {
            id: ID,
            time: 10,
            public: b"",
            helper,
        };
        assert!(rt; prepare_part(alloc, &tasks, &name, &part)? == step);
    }
    Ok(())
}

#[test]
fn faults_of_opening_are_told(rt: HostRuntime) -> Result<(), Fail> {
    let alloc = rt.alloc();
    for (fault, want) in [
        (OpenFault::Tag, "the tag differs"),
        (OpenFault::NoMemory, "no memory"),
    ] {
        let text = format!(in alloc; "{fault}")?;
        assert_eq!(rt; text.as_str(), want);
    }
    Ok(())
}
