//! Trial keys and known tasks. The keys are those of an independent program.

use super::*;
use dap_bytes::Name;
use std::alloc::Global;
use std::test::Fail;
use vdaf_api::{Kind, Toy};

/// Names and the keys of their trial tasks: verify, leader enc, leader mac, helper enc, helper mac.
const KEYS: [(&str, [u128; 5]); 2] = [
    (
        "v",
        [
            0xb8ec9d96eb417757878bfed22ea82cba,
            0xc698e806463ba2e4bd9fa6d2b948c7b4,
            0x2c6a190cf6324ed972e3aad347a288fb,
            0x8b383b242dbfad7c33cc39ede13b039c,
            0xc4b5beb973f821e6b5d2d463ef1e9638,
        ],
    ),
    (
        "a-very_long-name_of-32-character",
        [
            0x6c397f186f1f8c5106751c14e91a9a55,
            0x760e5372b4c729f654ba13b27a0bb659,
            0xedba82220fb8f2ed98caf90bb63e5b6f,
            0x518c323880d294d9cb1a07f0d11c1f52,
            0xf6acbb622f01bb20eabb28632b21d6ff,
        ],
    ),
];

#[test]
fn trial_keys_come_from_names(rt: HostRuntime) -> Result<(), Fail> {
    for (name, keys) in &KEYS {
        let name = Name::new(name.as_bytes()).ok_or("a name")?;
        let task = trial(name, Kind::Count, 3, 3600, Some(50));
        let found = [
            task.verify,
            task.leader.enc,
            task.leader.mac,
            task.helper.enc,
            task.helper.mac,
        ];
        for i in 0..5 {
            assert_eq!(rt; u128::from_be_bytes(found[i]), keys[i], "key {i}");
        }
        assert!(rt; task.name == name);
        assert_eq!(rt; (task.min, task.precision), (3, 3600));
        assert_eq!(rt; task.expires, Some(50));
    }
    Ok(())
}

#[test]
fn tasks_are_found_by_their_names(rt: HostRuntime) -> Result<(), Fail> {
    let alloc: Global = rt.alloc();
    let first = Name::new(b"a").ok_or("a name")?;
    let second = Name::new(b"b").ok_or("a name")?;
    let mut tasks: Tasks<Toy> = Tasks::new(alloc);
    assert!(rt; tasks.find(&first).is_none());
    assert!(rt;
        tasks
            .push(alloc, trial(first, Kind::Count, 1, 10, None))
            .is_ok()
    );
    assert!(rt;
        tasks
            .push(alloc, trial(second, Kind::Sum { bits: 8 }, 2, 20, Some(0)))
            .is_ok()
    );
    let (task, _) = tasks.find(&second).ok_or("the task")?;
    assert_eq!(rt; (task.min, task.precision), (2, 20));
    assert!(rt; task.kind == Kind::Sum { bits: 8 });
    Ok(())
}

/// A moment, a report's time, and whether it is early.
const EARLY: [(Option<u64>, u64, bool); 8] = [
    (None, 0, false),
    (None, 999_999_999_999_999_999, false),
    (Some(0), 300, false),
    (Some(0), 301, true),
    (Some(100), 400, false),
    (Some(100), 500, true),
    (
        Some(999_999_999_999_999_999),
        999_999_999_999_999_999,
        false,
    ),
    (Some(u64::MAX), u64::MAX, false),
];

/// A moment, a task's expiry, and whether the task has expired.
const EXPIRED: [(Option<u64>, Option<u64>, bool); 9] = [
    (None, None, false),
    (None, Some(0), false),
    (Some(999_999_999_999_999_999), None, false),
    (Some(0), Some(0), true),
    (Some(0), Some(1), false),
    (Some(49), Some(50), false),
    (Some(50), Some(50), true),
    (Some(51), Some(50), true),
    (
        Some(999_999_999_999_999_998),
        Some(999_999_999_999_999_999),
        false,
    ),
];

#[test]
fn moments_make_reports_early_and_tasks_expire(rt: HostRuntime) {
    for (moment, time, early) in EARLY {
        assert_eq!(rt; is_early(moment, time), early);
    }
    for (moment, expires, expired) in EXPIRED {
        assert_eq!(rt; is_expired(moment, expires), expired);
    }
}
