//! Short descriptions of records.

pub use Made::{
    Accept, Ask, AskWide, Commit, Continue, Finish, HelperAnswer, HelperAnswerWide, HelperClose,
    HelperFrontOpen, HelperFrontOpenTwo, HelperOpen, HelperOpenTwo, HelperTask, HelperTaskOf,
    HelperTaskTwo, LateAccept, LeaderAnswer, LeaderAnswerWide, LeaderClose, LeaderFrontOpen,
    LeaderFrontOpenTwo, LeaderOpen, LeaderOpenTwo, LeaderTask, LeaderTaskTwo, Mismatched, Others,
    Small, Start,
};
use dap_bytes::{Bytes, Name, Span};
use dap_messages::{Code, Half, Items, JobNo, Reply, Report, ShareReq, ShareResp, Step, Tagged};
use lane_records::{Answered, Closed, Format, Outcome, Record, StoredTask};
use std::alloc::Global;
use std::test::Fail;
use vdaf_api::{Kind, SealKeys};

/// A job's lane, incarnation and counter.
type Job = (u8, u64, u64);

/// A record of the tests. A name is of one character, and an identifier of one byte, sixteen times.
#[derive(Clone, Copy)]
pub enum Made {
    /// The number of lanes, and its own, in format 1.
    LeaderOpen(u8, u8),
    /// The name and the identifier.
    Accept(u8, u8),
    /// The same at a time that no form has.
    LateAccept(u8, u8),
    /// The name, the job and the identifiers.
    Continue(u8, Job, &'static [u8]),
    /// The job, and the identifiers that were finished and then those that were not.
    Finish(Job, &'static [u8], &'static [u8]),
    /// The name and the start.
    LeaderClose(u8, u64),
    HelperOpen(u8, u8),
    /// The same in format 2.
    LeaderOpenTwo(u8, u8),
    HelperOpenTwo(u8, u8),
    LeaderFrontOpenTwo(u8),
    HelperFrontOpenTwo(u8),
    Start(Job, u8, &'static [u8]),
    Commit(Job, &'static [u8], &'static [u8]),
    HelperClose(u8, u64),
    LeaderFrontOpen(u8),
    /// The name and the precision.
    LeaderTask(u8, u32),
    /// The same of format 2.
    LeaderTaskTwo(u8, u32),
    HelperTaskTwo(u8, u32),
    Ask(u8, u64),
    /// The same for so many buckets.
    AskWide(u8, u64, u8),
    LeaderAnswer(u8, u64),
    LeaderAnswerWide(u8, u64, u8),
    HelperFrontOpen(u8),
    /// The name and the minimum, with a precision of 60.
    HelperTask(u8, u32),
    /// The name and the precision, with a minimum of 1.
    HelperTaskOf(u8, u32),
    /// The name, the start, the number of buckets and the count, with a share.
    HelperAnswerWide(u8, u64, u8, u32),
    /// The same with one bucket.
    HelperAnswer(u8, u64, u32),
    /// A request for one batch and a reply for another, with a share: each with its name, start and number of buckets.
    Mismatched((u8, u64, u8), (u8, u64, u8)),
    /// An answer that there are too few.
    Small(u8, u64),
    /// An answer that there are others.
    Others(u8, u64),
}

/// The record that is described.
pub(super) fn record(alloc: Global, made: Made) -> Result<Record, Fail> {
    match made {
        LeaderFrontOpen(lanes) => Ok(Record::LeaderFrontOpen(Format::One, lanes)),
        LeaderFrontOpenTwo(lanes) => Ok(Record::LeaderFrontOpen(Format::Two, lanes)),
        LeaderTask(of, precision) => Ok(Record::LeaderTask(task(Format::One, of, 1, precision)?)),
        LeaderTaskTwo(of, precision) => {
            Ok(Record::LeaderTask(task(Format::Two, of, 1, precision)?))
        }
        Ask(of, start) => Ok(Record::Ask(name(of)?, batch(start, 1))),
        AskWide(of, start, buckets) => Ok(Record::Ask(name(of)?, batch(start, buckets))),
        LeaderAnswer(of, start) => {
            Ok(Record::LeaderAnswer(name(of)?, batch(start, 1), answered(alloc)))
        }
        LeaderAnswerWide(of, start, buckets) => {
            Ok(Record::LeaderAnswer(name(of)?, batch(start, buckets), answered(alloc)))
        }
        HelperFrontOpen(lanes) => Ok(Record::HelperFrontOpen(Format::One, lanes)),
        HelperFrontOpenTwo(lanes) => Ok(Record::HelperFrontOpen(Format::Two, lanes)),
        HelperTask(of, min) => Ok(Record::HelperTask(task(Format::One, of, min, 60)?)),
        HelperTaskOf(of, precision) => Ok(Record::HelperTask(task(Format::One, of, 1, precision)?)),
        HelperTaskTwo(of, min) => Ok(Record::HelperTask(task(Format::Two, of, min, 60)?)),
        HelperAnswer(of, start, count) => {
            let share = Reply::Share(nothing(alloc));
            answer((of, batch(start, 1)), count, (of, batch(start, 1)), share)
        }
        HelperAnswerWide(of, start, buckets, count) => {
            let share = Reply::Share(nothing(alloc));
            answer(
                (of, batch(start, buckets)),
                count,
                (of, batch(start, buckets)),
                share,
            )
        }
        Mismatched((of, start, buckets), (other, begins, count)) => {
            let share = Reply::Share(nothing(alloc));
            answer(
                (of, batch(start, buckets)),
                9,
                (other, batch(begins, count)),
                share,
            )
        }
        Small(of, start) => {
            let one = batch(start, 1);
            answer((of, one), 9, (of, one), Reply::Small(9))
        }
        Others(of, start) => {
            let one = batch(start, 1);
            answer((of, one), 9, (of, one), Reply::Mismatch(9, [0; 32]))
        }
        _ => lane_record(alloc, made),
    }
}

fn lane_record(alloc: Global, made: Made) -> Result<Record, Fail> {
    match made {
        LeaderOpen(lanes, lane) => Ok(Record::LeaderOpen(Format::One, lanes, lane)),
        LeaderOpenTwo(lanes, lane) => Ok(Record::LeaderOpen(Format::Two, lanes, lane)),
        Accept(of, id) => accepted(alloc, of, id, 10),
        LateAccept(of, id) => accepted(alloc, of, id, 1_000_000_000_000_000_000),
        Continue(of, number, ids) => continued(alloc, of, number, ids),
        Finish(number, finished, failed) => {
            let outs = outcomes(alloc, finished, failed)?;
            Ok(Record::Finish(job(number), outs))
        }
        LeaderClose(of, start) => Ok(Record::LeaderClose(name(of)?, start, closed(alloc))),
        HelperOpen(lanes, lane) => Ok(Record::HelperOpen(Format::One, lanes, lane)),
        HelperOpenTwo(lanes, lane) => Ok(Record::HelperOpen(Format::Two, lanes, lane)),
        Start(number, of, ids) => started(alloc, number, of, ids),
        Commit(number, finished, failed) => {
            let outs = outcomes(alloc, finished, failed)?;
            Ok(Record::Commit(job(number), outs))
        }
        HelperClose(of, start) => Ok(Record::HelperClose(name(of)?, start, closed(alloc))),
        _ => Err("of a front".into()),
    }
}

pub(super) fn name(of: u8) -> Result<Name, Fail> {
    match Name::new(&[of]) {
        Some(name) => Ok(name),
        None => Err("not a name".into()),
    }
}

pub(super) fn job(number: Job) -> JobNo {
    let (lane, incarnation, counter) = number;
    JobNo {
        lane,
        incarnation,
        counter,
    }
}

/// The batch of so many buckets from a start on.
fn batch(start: u64, buckets: u8) -> Span {
    Span { start, buckets }
}

fn nothing(alloc: Global) -> Bytes {
    Bytes::new(Vec::new(alloc))
}

fn accepted(alloc: Global, of: u8, id: u8, time: u64) -> Result<Record, Fail> {
    Ok(Record::Accept(Report {
        name: name(of)?,
        id: [id; 16],
        time,
        public: nothing(alloc),
        leader: nothing(alloc),
        helper: nothing(alloc),
    }))
}

fn continued(alloc: Global, of: u8, number: Job, ids: &[u8]) -> Result<Record, Fail> {
    let name = name(of)?;
    let mut items = Vec::new(alloc);
    for id in ids {
        items.push(Tagged {
            id: [*id; 16],
            body: Step::Continued(nothing(alloc)),
        })?;
    }
    Ok(Record::Continue(name, job(number), Items::new(items)))
}

fn started(alloc: Global, number: Job, of: u8, ids: &[u8]) -> Result<Record, Fail> {
    let name = name(of)?;
    let mut items = Vec::new(alloc);
    for id in ids {
        items.push(Tagged {
            id: [*id; 16],
            body: Half {
                time: 10,
                public: nothing(alloc),
                helper: nothing(alloc),
            },
        })?;
    }
    Ok(Record::Start(job(number), name, Items::new(items)))
}

fn outcomes(alloc: Global, finished: &[u8], failed: &[u8]) -> Result<Items<Outcome>, Fail> {
    let mut items = Vec::new(alloc);
    for id in finished {
        items.push(Tagged {
            id: [*id; 16],
            body: Outcome::Finished(nothing(alloc)),
        })?;
    }
    for id in failed {
        items.push(Tagged {
            id: [*id; 16],
            body: Outcome::Failed(Code::VdafPrepError),
        })?;
    }
    Ok(Items::new(items))
}

fn closed(alloc: Global) -> Closed {
    Closed {
        count: 0,
        rejected: 0,
        checksum: [0; 32],
        share: nothing(alloc),
    }
}

fn answered(alloc: Global) -> Answered {
    Answered {
        count: 0,
        rejected: 0,
        leader: nothing(alloc),
        helper: nothing(alloc),
    }
}

fn task(format: Format, of: u8, min: u32, precision: u32) -> Result<StoredTask, Fail> {
    Ok(StoredTask {
        format,
        name: name(of)?,
        kind: Kind::Count,
        min,
        precision,
        expires: None,
        verify: [0; 16],
        keys: SealKeys {
            enc: [0; 16],
            mac: [0; 16],
        },
    })
}

/// A request with a count, and what was replied.
fn answer(asked: (u8, Span), count: u32, told: (u8, Span), reply: Reply) -> Result<Record, Fail> {
    let request = ShareReq {
        name: name(asked.0)?,
        span: asked.1,
        count,
        checksum: [0; 32],
    };
    let response = ShareResp {
        name: name(told.0)?,
        span: told.1,
        reply,
    };
    Ok(Record::HelperAnswer(request, response))
}
