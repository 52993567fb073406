use super::*;
use dap_bytes::Name;
use dap_messages::JobNo;
use std::test::Fail;

fn job(counter: u64) -> JobNo {
    JobNo {
        lane: 0,
        incarnation: 1,
        counter,
    }
}

#[test]
fn the_first_job_stays(rt: HostRuntime) -> Result<(), Fail> {
    let (name, other) = (
        Name::new(b"v").expect(&rt, "a name"),
        Name::new(b"w").expect(&rt, "a name"),
    );
    let id = [1; 16];
    let mut table = ReplayTable::new(rt.alloc());
    assert_eq!(rt; table.find(&name, &id), None);
    assert_eq!(rt; table.put(&name, &id, job(3)), Ok(()));
    assert_eq!(rt;
        table.put(&name, &id, job(4)),
        Err(PutFault::There { job: job(3) })
    );
    assert_eq!(rt; table.find(&name, &id), Some(job(3)));
    assert_eq!(rt; table.find(&other, &id), None);
    assert_eq!(rt; table.find(&name, &[2; 16]), None);
    let mut near = id;
    near[15] = 2;
    assert_eq!(rt; table.find(&name, &near), None);
    assert_eq!(rt; table.take_out(&name, &near), None);
    assert_eq!(rt; table.take_out(&other, &id), None);
    assert_eq!(rt; table.take_out(&name, &[2; 16]), None);
    assert_eq!(rt; table.take_out(&name, &id), Some(job(3)));
    assert_eq!(rt; table.take_out(&name, &id), None);
    assert_eq!(rt; table.put(&name, &id, job(4)), Ok(()));
    Ok(())
}

#[test]
fn faults_are_printed(rt: HostRuntime) -> Result<(), Fail> {
    let alloc = rt.alloc();
    for (fault, text) in [
        (
            PutFault::There { job: job(3) },
            "the report was finished before",
        ),
        (PutFault::NoMemory, "no memory"),
    ] {
        assert_eq!(rt; format!(in alloc; "{fault}")?.as_str(), text);
    }
    Ok(())
}

/// The next number of a fixed linear congruence modulo 2^64.
fn next_drawn(number: u64) -> u64 {
    number
        .wrapping_mul(6_364_136_223_846_793_005)
        .wrapping_add(1_442_695_040_888_963_407)
}

#[test]
fn drawn_calls_agree_with_a_plain_list(rt: HostRuntime) -> Result<(), Fail> {
    let (name, other) = (
        Name::new(b"v").expect(&rt, "a name"),
        Name::new(b"w").expect(&rt, "a name"),
    );
    let mut table = ReplayTable::new(rt.alloc());
    let mut plain = Vec::new(rt.alloc());
    let mut drawn = 1;
    for turn in 0..10_000 {
        drawn = next_drawn(drawn);
        let task = if (drawn >> 40) % 2 == 0 { name } else { other };
        let id = [((drawn >> 33) % 120) as u8; 16];
        let mut held = None;
        for (known_task, known_id, known_job) in &plain {
            if *known_task == task && *known_id == id {
                held = Some(*known_job);
            }
        }
        assert_eq!(rt; table.find(&task, &id), held);
        if (drawn >> 50) % 4 == 0 {
            let want = held.map_or(Ok(()), |job| Err(PutFault::There { job }));
            assert_eq!(rt; table.put(&task, &id, job(turn)), want);
            if held.is_none() {
                plain.push((task, id, job(turn)))?;
            }
        } else if (drawn >> 50) % 4 == 1 {
            assert_eq!(rt; table.take_out(&task, &id), held);
            plain.retain(|known| known.0 != task || known.1 != id);
        }
    }
    assert!(rt; 100 < plain.len() && plain.len() < 140);
    Ok(())
}

/// The value again. It may be moved to another thread, and shared with it.
fn shared<T: Send + Sync>(value: T) -> T {
    value
}

#[test]
fn a_table_may_be_shared_with_workers(rt: HostRuntime) {
    let name = Name::new(b"v").expect(&rt, "a name");
    let table = shared(ReplayTable::new(rt.alloc()));
    assert_eq!(rt; table.find(&name, &[1; 16]), None);
}
