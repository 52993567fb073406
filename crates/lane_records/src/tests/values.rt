//! Records as values, and their spellings.

use super::{
    ANSWER_WIDE, ASK_WIDE, EXCHANGE_WIDE, HELPER_TASK_TWO, LEADER_TASK_TWO, RECORDS, VECTOR_TASK,
    spelling,
};
use crate::{Answered, Closed, Format, Outcome, Record, StoredTask};
use dap_bytes::{Bytes, Name, Span};
use dap_messages::{
    Code, Half, Items, JobNo, Reply, Report, ShareReq, ShareResp, Spelled, Step, Tagged,
};
use std::alloc::Global;
use std::test::Fail;
use vdaf_api::{Bounds, Kind, SealKeys};

fn name(text: &[u8]) -> Result<Name, Fail> {
    match Name::new(text) {
        Some(name) => Ok(name),
        None => Err("not a name".into()),
    }
}

fn bytes(alloc: Global, text: &[u8]) -> Result<Bytes, Fail> {
    Ok(Bytes::new(text.to_vec(alloc)?))
}

/// Two items: the first and the other report.
fn two<B: Drop>(alloc: Global, first: B, other: B) -> Result<Items<B>, Fail> {
    let mut items = Vec::new(alloc);
    items.push(Tagged {
        id: *b"the first report",
        body: first,
    })?;
    items.push(Tagged {
        id: *b"the other report",
        body: other,
    })?;
    Ok(Items::new(items))
}

/// A job's number.
const JOB: JobNo = JobNo {
    lane: 2,
    incarnation: 3,
    counter: 4,
};

fn outcomes(alloc: Global) -> Result<Items<Outcome>, Fail> {
    let share = bytes(alloc, b"out")?;
    two(
        alloc,
        Outcome::Finished(share),
        Outcome::Failed(Code::ReportReplayed),
    )
}

fn closed(alloc: Global) -> Result<Closed, Fail> {
    Ok(Closed {
        count: 2,
        rejected: 1,
        checksum: *b"the checksum of the identifiers.",
        share: bytes(alloc, b"sum")?,
    })
}

fn report(alloc: Global) -> Result<Report, Fail> {
    Ok(Report {
        name: name(b"v")?,
        id: *b"the first report",
        time: 10,
        public: bytes(alloc, b"")?,
        leader: bytes(alloc, b"one")?,
        helper: bytes(alloc, b"two")?,
    })
}

fn steps(alloc: Global) -> Result<Items<Step>, Fail> {
    let prep = bytes(alloc, b"prep")?;
    two(
        alloc,
        Step::Continued(prep),
        Step::Failed(Code::VdafPrepError),
    )
}

fn halves(alloc: Global) -> Result<Items<Half>, Fail> {
    let mut items = Vec::new(alloc);
    let half = Half {
        time: 10,
        public: bytes(alloc, b"")?,
        helper: bytes(alloc, b"two")?,
    };
    items.push(Tagged {
        id: *b"the first report",
        body: half,
    })?;
    Ok(Items::new(items))
}

fn task(kind: Kind, min: u32, precision: u32) -> Result<StoredTask, Fail> {
    Ok(StoredTask {
        format: Format::One,
        name: name(b"v")?,
        kind,
        min,
        precision,
        expires: None,
        verify: *b"the verify key..",
        keys: SealKeys {
            enc: *b"the cipher key..",
            mac: *b"the key of tags.",
        },
    })
}

/// The same in format 2.
fn task_two(kind: Kind, expires: Option<u64>) -> Result<StoredTask, Fail> {
    let mut one = task(kind, 10, 3600)?;
    one.format = Format::Two;
    one.expires = expires;
    Ok(one)
}

/// So many bounds: 0 and on.
fn wide(alloc: Global, count: u64) -> Result<Kind, Fail> {
    let mut bounds = Vec::new(alloc);
    for bound in 0..count {
        bounds.push(bound)?;
    }
    Ok(Kind::Histogram {
        bounds: Bounds::new(bounds),
    })
}

/// Tasks of format 2: a sum, a histogram that expires, and a vector.
fn tasks_two(alloc: Global) -> Result<[Record; 3], Fail> {
    Ok([
        Record::LeaderTask(task_two(Kind::Sum { bits: 8 }, None)?),
        Record::HelperTask(task_two(histogram(alloc, &[5, 9])?, Some(50))?),
        Record::LeaderTask(task_two(Kind::Vector { len: 3, bits: 8 }, None)?),
    ])
}

#[test]
fn a_task_of_format_2_is_written_field_by_field(rt: HostRuntime) -> Result<(), Fail> {
    let alloc = rt.alloc();
    let forms = [LEADER_TASK_TWO, HELPER_TASK_TWO, VECTOR_TASK];
    for (record, bytes) in tasks_two(alloc)?.iter().zip(forms.iter()) {
        assert_eq!(rt; spelling(alloc, record)?.as_slice(), *bytes);
    }
    Ok(())
}

/// The records for a batch of three buckets.
fn wide_records(alloc: Global) -> Result<[Record; 3], Fail> {
    Ok([
        Record::Ask(name(b"v")?, batch(3)),
        Record::LeaderAnswer(name(b"v")?, batch(3), answered(alloc)?),
        exchange(alloc, 3)?,
    ])
}

#[test]
fn a_batch_of_several_buckets_has_a_form_of_its_own(rt: HostRuntime) -> Result<(), Fail> {
    let alloc = rt.alloc();
    let forms = [ASK_WIDE, ANSWER_WIDE, EXCHANGE_WIDE];
    for (record, bytes) in wide_records(alloc)?.iter().zip(forms.iter()) {
        assert_eq!(rt; spelling(alloc, record)?.as_slice(), *bytes);
    }
    Ok(())
}

#[test]
fn only_format_2_has_vectors(rt: HostRuntime) -> Result<(), Fail> {
    assert!(rt; !task(Kind::Vector { len: 1, bits: 1 }, 1, 1)?.is_allowed());
    for (len, bits, want) in [
        (0, 1, false),
        (1, 0, false),
        (1, 1, true),
        (1, 33, false),
        (63, 32, true),
        (64, 32, false),
        (1024, 1, true),
        (1025, 1, false),
    ] {
        let one = task_two(Kind::Vector { len, bits }, None)?;
        assert_eq!(rt; one.is_allowed(), want, "{len} numbers of {bits} bits");
    }
    Ok(())
}

#[test]
fn only_format_2_has_many_bounds_and_an_expiry(rt: HostRuntime) -> Result<(), Fail> {
    let alloc = rt.alloc();
    let mut one = task(wide(alloc, 63)?, 1, 1)?;
    assert!(rt; one.is_allowed());
    one.expires = Some(0);
    assert!(rt; !one.is_allowed());
    assert!(rt; !task(wide(alloc, 64)?, 1, 1)?.is_allowed());
    assert!(rt; task_two(wide(alloc, 64)?, None)?.is_allowed());
    assert!(rt; task_two(wide(alloc, 1023)?, Some(999_999_999_999_999_999))?.is_allowed());
    assert!(rt; !task_two(wide(alloc, 1024)?, None)?.is_allowed());
    assert!(rt; !task_two(Kind::Count, Some(1_000_000_000_000_000_000))?.is_allowed());
    Ok(())
}

fn histogram(alloc: Global, bounds: &[u64]) -> Result<Kind, Fail> {
    Ok(Kind::Histogram {
        bounds: Bounds::new(bounds.to_vec(alloc)?),
    })
}

/// The records of lanes that `RECORDS` begins with, in its order.
fn lane_records(alloc: Global) -> Result<[Record; 9], Fail> {
    Ok([
        Record::LeaderOpen(Format::One, 4, 3),
        Record::Accept(report(alloc)?),
        Record::Continue(name(b"v")?, JOB, steps(alloc)?),
        Record::Finish(JOB, outcomes(alloc)?),
        Record::LeaderClose(name(b"v")?, 3600, closed(alloc)?),
        Record::HelperOpen(Format::One, 4, 3),
        Record::Start(JOB, name(b"v")?, halves(alloc)?),
        Record::Commit(JOB, outcomes(alloc)?),
        Record::HelperClose(name(b"v")?, 3600, closed(alloc)?),
    ])
}

fn answered(alloc: Global) -> Result<Answered, Fail> {
    Ok(Answered {
        count: 2,
        rejected: 1,
        leader: bytes(alloc, b"one")?,
        helper: bytes(alloc, b"two")?,
    })
}

/// The batch of so many buckets from 3,600 on.
fn batch(buckets: u8) -> Span {
    Span {
        start: 3600,
        buckets,
    }
}

fn exchange(alloc: Global, buckets: u8) -> Result<Record, Fail> {
    let request = ShareReq {
        name: name(b"v")?,
        span: batch(buckets),
        count: 2,
        checksum: *b"the checksum of the identifiers.",
    };
    let response = ShareResp {
        name: name(b"v")?,
        span: batch(buckets),
        reply: Reply::Share(bytes(alloc, b"two")?),
    };
    Ok(Record::HelperAnswer(request, response))
}

/// The records of fronts that `RECORDS` ends with, in its order.
fn front_records(alloc: Global) -> Result<[Record; 7], Fail> {
    Ok([
        Record::LeaderFrontOpen(Format::One, 4),
        Record::LeaderTask(task(Kind::Sum { bits: 8 }, 10, 3600)?),
        Record::Ask(name(b"v")?, batch(1)),
        Record::LeaderAnswer(name(b"v")?, batch(1), answered(alloc)?),
        Record::HelperFrontOpen(Format::One, 4),
        Record::HelperTask(task(histogram(alloc, &[5, 9])?, 10, 3600)?),
        exchange(alloc, 1)?,
    ])
}

#[test]
fn each_form_is_written_field_by_field(rt: HostRuntime) -> Result<(), Fail> {
    let alloc = rt.alloc();
    for (record, bytes) in lane_records(alloc)?.iter().zip(RECORDS.iter()) {
        assert_eq!(rt; spelling(alloc, record)?.as_slice(), *bytes);
    }
    for (record, bytes) in front_records(alloc)?.iter().zip(RECORDS[9..].iter()) {
        assert_eq!(rt; spelling(alloc, record)?.as_slice(), *bytes);
    }
    Ok(())
}

/// Tasks that are out of range in one place each.
fn wrong_tasks(alloc: Global) -> Result<[StoredTask; 10], Fail> {
    Ok([
        task(Kind::Count, 0, 1)?,
        task(Kind::Count, 1_000_001, 1)?,
        task(Kind::Count, 1, 0)?,
        task(Kind::Count, 1, 1_000_000_001)?,
        task(Kind::Sum { bits: 0 }, 1, 1)?,
        task(Kind::Sum { bits: 65 }, 1, 1)?,
        task(histogram(alloc, &[])?, 1, 1)?,
        task(histogram(alloc, &[5, 5])?, 1, 1)?,
        task(histogram(alloc, &[1, 9, 5])?, 1, 1)?,
        task(histogram(alloc, &[7; 64])?, 1, 1)?,
    ])
}

/// So many items, all of the same report.
fn same(alloc: Global, count: u8) -> Result<Items<Outcome>, Fail> {
    let mut items = Vec::new(alloc);
    for _ in 0..count {
        items.push(Tagged {
            id: [7; 16],
            body: Outcome::Failed(Code::BatchCollected),
        })?;
    }
    Ok(Items::new(items))
}

/// What a lane had of a bucket, with so many bytes of a share.
fn closed_with(alloc: Global, len: usize) -> Result<Closed, Fail> {
    let mut share = Vec::new(alloc);
    for _ in 0..len {
        share.push(7)?;
    }
    Ok(Closed {
        count: 0,
        rejected: 0,
        checksum: [0; 32],
        share: Bytes::new(share),
    })
}

/// Other records that no bytes spell.
fn wrong_records(alloc: Global) -> Result<[Record; 8], Fail> {
    let long = closed_with(alloc, 16_385)?;
    let mut late = report(alloc)?;
    late.time = 1_000_000_000_000_000_000;
    Ok([
        Record::Accept(late),
        Record::Ask(
            name(b"v")?,
            Span {
                start: 1_000_000_000_000_000_000,
                buckets: 1,
            },
        ),
        Record::Ask(name(b"v")?, batch(0)),
        Record::Ask(name(b"v")?, batch(65)),
        Record::LeaderClose(name(b"v")?, 0, long),
        Record::Finish(JOB, same(alloc, 0)?),
        Record::Commit(JOB, same(alloc, 2)?),
        Record::HelperClose(name(b"v")?, u64::MAX, closed(alloc)?),
    ])
}

#[test]
fn values_outside_the_forms_are_told(rt: HostRuntime) -> Result<(), Fail> {
    let alloc = rt.alloc();
    for task in wrong_tasks(alloc)? {
        let record = Record::LeaderTask(task);
        assert!(rt; !record.is_allowed());
    }
    for record in wrong_records(alloc)? {
        assert!(rt; !record.is_allowed());
    }
    assert!(rt; Record::Finish(JOB, same(alloc, 1)?).is_allowed());
    assert!(rt; Record::LeaderClose(name(b"v")?, 0, closed_with(alloc, 16_384)?).is_allowed());
    Ok(())
}
