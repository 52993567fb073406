use super::*;
use dap_bytes::{put_u8, put_u16, put_u32, put_u64};
use dap_messages::{JobNo, ReadFault, read_message};
use std::alloc::Global;
use std::test::Fail;

/// The InitReq of the job 0, 1, 0 for the task `v` with one report: identifier zero, time 10, empty parts.
const ONE: [u8; 54] = [
    1, 0, 0, 0, 0, 0, 0, 0, 0, 1, 0, 0, 0, 0, 0, 0, 0, 0, 1, 0x76, 0, 1, 0, 0, 0, 0, 0, 0, 0, 0, 0,
    0, 0, 0, 0, 0, 0, 0, 0, 0, 0, 0, 0, 0, 0, 10, 0, 0, 0, 0, 0, 0, 0, 0,
];

/// The InitReq of the job 2, 3, 4 for the task `a-z` with the reports 1 (time 10, shares `ab` and `c`) and 2 (the latest
/// time, shares empty and `xyz`), by hand.
const TWO: [u8; 94] = [
    1, 2, 0, 0, 0, 0, 0, 0, 0, 3, 0, 0, 0, 0, 0, 0, 0, 4, 3, 0x61, 0x2d, 0x7a, 0, 2, 0, 0, 0, 0, 0,
    0, 0, 0, 0, 0, 0, 0, 0, 0, 0, 1, 0, 0, 0, 0, 0, 0, 0, 10, 0, 0, 0, 2, 0x61, 0x62, 0, 0, 0, 1,
    0x63, 0, 0, 0, 0, 0, 0, 0, 0, 0, 0, 0, 0, 0, 0, 0, 2, 0x0d, 0xe0, 0xb6, 0xb3, 0xa7, 0x63, 0xff,
    0xff, 0, 0, 0, 0, 0, 0, 0, 3, 0x78, 0x79, 0x7a,
];

/// The place of the fault in a request, if it has one.
fn fault_of(bytes: &[u8]) -> Option<usize> {
    view_request(bytes).err().map(|form| form.at)
}

/// The place of the fault that `read_message` names, and 0 where the first byte isn't 01.
fn message_fault_of(alloc: Global, bytes: &[u8]) -> Result<Option<usize>, Fail> {
    if bytes.first() != Some(&1) {
        return Ok(Some(0));
    }
    match read_message(alloc, bytes) {
        Ok(_message) => Ok(None),
        Err(ReadFault::Form { at }) => Ok(Some(at)),
        Err(ReadFault::NoMemory) => Err("no memory".into()),
    }
}

#[test]
fn parts_are_handed_out_in_order(rt: HostRuntime) -> Result<(), Fail> {
    let mut view = view_request(&ONE).map_err(|_| "a request")?;
    let job = JobNo {
        lane: 0,
        incarnation: 1,
        counter: 0,
    };
    assert_eq!(rt;
        (view.job(), view.name(), view.bytes()),
        (job, b"v".as_slice(), ONE.as_slice())
    );
    let part = view.next().ok_or("a part")?;
    assert_eq!(rt; part.id.as_slice(), &ONE[22..38]);
    assert_eq!(rt;
        (part.time, part.public.len(), part.helper.len()),
        (10, 0, 0)
    );
    assert!(rt; view.next().is_none());
    let mut view = view_request(&TWO).map_err(|_| "a request")?;
    let again = view;
    assert_eq!(rt; (view.job().counter, view.name()), (4, b"a-z".as_slice()));
    for (id, time, public, helper) in [
        (1, 10, b"ab".as_slice(), b"c".as_slice()),
        (2, 999_999_999_999_999_999, b"", b"xyz"),
    ] {
        let part = view.next().ok_or("a part")?;
        assert_eq!(rt;
            (part.id[15], part.time, part.public, part.helper),
            (id, time, public, helper)
        );
    }
    assert!(rt; view.next().is_none());
    assert!(rt; view.next().is_none());
    assert_eq!(rt; (view.bytes(), again.count()), (TWO.as_slice(), 2));
    Ok(())
}

#[test]
fn faults_are_those_of_the_message(rt: HostRuntime) -> Result<(), Fail> {
    let alloc = rt.alloc();
    assert_eq!(rt; fault_of(&ONE), None);
    for len in 0..ONE.len() {
        assert_eq!(rt; fault_of(&ONE[..len]), Some(len), "cut at {len}");
        assert_eq!(rt;
            message_fault_of(alloc, &ONE[..len])?,
            Some(len),
            "cut at {len}"
        );
    }
    for byte in 0..ONE.len() {
        let mut changed = ONE;
        changed[byte] = 0xff;
        assert_eq!(rt;
            fault_of(&changed),
            message_fault_of(alloc, &changed)?,
            "ff at {byte}"
        );
    }
    for (byte, value, place) in [
        (0, 2, Some(0)),
        (18, 0, Some(18)),
        (19, 0x41, Some(19)),
        (23, 0, Some(22)),
        (23, 1, Some(59)),
        (23, 65, Some(22)),
        (74, 0, Some(59)),
        (74, 1, Some(59)),
        (75, 0x0e, Some(75)),
    ] {
        let mut changed = TWO;
        changed[byte] = value;
        assert_eq!(rt; fault_of(&changed), place, "{value} at {byte}");
        assert_eq!(rt;
            message_fault_of(alloc, &changed)?,
            place,
            "{value} at {byte}"
        );
    }
    let mut longer = ONE.to_vec(alloc)?;
    longer.push(0)?;
    assert_eq!(rt; fault_of(&longer), Some(54));
    Ok(())
}

#[test]
fn the_longest_request_is_walked(rt: HostRuntime) -> Result<(), Fail> {
    let alloc = rt.alloc();
    let share = vec![in alloc; 7; 32_000]?;
    let mut bytes = ONE[..20].to_vec(alloc)?;
    put_u16(&mut bytes, 64)?;
    for report in 0..64 {
        bytes.extend_from_slice(&[0; 15])?;
        put_u8(&mut bytes, report)?;
        put_u64(&mut bytes, 10)?;
        for _ in 0..2 {
            put_u32(&mut bytes, 32_000)?;
            bytes.extend_from_slice(&share)?;
        }
    }
    assert_eq!(rt; bytes.len(), 4_098_070);
    let mut view = view_request(&bytes).map_err(|_| "a request")?;
    for report in 0..64 {
        let part = view.next().ok_or("a part")?;
        let whole = part.public == share.as_slice() && part.helper == share.as_slice();
        assert_eq!(rt; (part.id[15], whole), (report, true));
    }
    assert!(rt; view.next().is_none());
    Ok(())
}
