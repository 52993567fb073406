//! A leader's lane over a disk in memory.

ghost use Rattle.std.specs.Prelude.{◌≤◌, List, IfOk, IsTrue};
ghost use Rattle.lane_records.specs.declared.record.Record.{Record};
ghost use Rattle.leader_lane.specs.Sound.{IsPlace, Spells};

use dap_bytes::{Bytes, Id, Name, Node, Part};
use dap_disk::{Disk, Image, MemDisk, Stop};
use dap_messages::{Report, Spelled, write_report};
use dap_outside::{Fate, Fates, ListFates};
use dap_tasks::{Cause, Tasks, trial};
use dap_wire::{FrontEnd, Upload, link, plain};
use lane_records::{LaneFault, Place, Record, read_records};
use leader_lane::{LeaderLane, Pumped, opens_fit};
use legal_journals::legal;
use report_journal::Log;
use std::alloc::Global;
use std::process::Abort;
use std::test::Fail;
use vdaf_api::{Kind, Toy, Vdaf};

/// The second of two lanes: it has the identifiers whose first byte is odd.
const SECOND: Place = Place { lanes: 2, lane: 1 };

/// The only lane.
const ONLY: Place = Place { lanes: 1, lane: 0 };

// The log's opening makes four calls of the disk, the lane's four, and each block four.

const FIRST_BLOCK_AT: u64 = 9;

/// What an upload is told: its line, and its cause if it has one.
type Told = (u32, Option<Cause>);

/// An upload: the report's task, first byte of the identifier and time, the moment, and the cause that it is told.
type Case = (u8, u8, u64, Option<u64>, Option<Cause>);

/// Each cause at both sides of its bound, by reports of both tasks and of another.
const CAUSES: [Case; 13] = [
    (b'v', 1, 10, None, None),
    (b'v', 1, 10, Some(0), None),
    (b'v', 1, 20, None, Some(Cause::Conflict)),
    (b'v', 3, 501, Some(200), Some(Cause::Early)),
    (b'v', 3, 500, Some(200), None),
    (b'w', 5, 10, None, Some(Cause::Task)),
    (b'v', 6, 10, None, Some(Cause::Task)),
    (b'x', 1, 10, Some(1000), Some(Cause::Expired)),
    (b'x', 1, 10, Some(999), None),
    (b'x', 1, 10, Some(2000), None),
    (b'x', 1, 11, Some(2000), Some(Cause::Expired)),
    (b'x', 1, 1400, Some(1000), Some(Cause::Early)),
    (b'x', 1, 1300, Some(999), Some(Cause::Early)),
];

/// An accepted identifier comes again in the next bucket, between reports that are accepted.
const CONFLICT: [Case; 4] = [
    (b'v', 1, 10, None, None),
    (b'v', 3, 20, None, None),
    (b'v', 1, 3600, None, Some(Cause::Conflict)),
    (b'v', 5, 3599, None, None),
];

/// A report of 400 units of time past its moment, and one of 300.
const EARLY: [Case; 2] = [
    (b'v', 1, 500, Some(100), Some(Cause::Early)),
    (b'v', 3, 400, Some(100), None),
];

/// A report, the same again, and another.
const AGAIN: [Case; 3] = [
    (b'v', 1, 10, None, None),
    (b'v', 1, 10, None, None),
    (b'v', 3, 10, None, None),
];

/// Reports around the end of the first bucket, which is closed for one task.
const CLOSED: [Case; 3] = [
    (b'v', 1, 3599, None, Some(Cause::Collected)),
    (b'v', 1, 3600, None, None),
    (b'x', 1, 3599, None, None),
];

/// What comes behind them: a repeat, and other bytes under the identifier.
const LATER: [Case; 2] = [
    (b'v', 3, 10, None, None),
    (b'v', 1, 11, None, Some(Cause::Conflict)),
];

/// A journal of the second of two lanes as the other program writes it, but for zeros at its end: an Open of format 1, and
/// the Close of the task `v` from time 0 on, of no report.
const CLOSING: [u8; 25] = [
    1, 0, 0, 0, 8, 0, 0, 0, 4, 1, 1, 2, 1, 1, 0, 0, 0, 59, 0, 0, 0, 55, 5, 1, b'v',
];

// ---- uploads

fn id_of(first: u8) -> Id {
    let mut id = [0; 16];
    id[0] = first;
    id
}

fn bytes(alloc: Global, items: &[u8]) -> Result<Bytes, Fail> {
    Ok(Bytes::new(items.to_vec(alloc)?))
}

fn report_of(alloc: Global, task: u8, id: u8, time: u64) -> Result<Report, Fail> {
    let name = Name::new(&[task]).ok_or("a name")?;
    Ok(Report {
        name,
        id: id_of(id),
        time,
        public: bytes(alloc, b"")?,
        leader: bytes(alloc, b"leader")?,
        helper: bytes(alloc, b"helper")?,
    })
}

fn report(rt: &impl Abort, alloc: Global, task: u8, id: u8, time: u64) -> Result<Vec<u8>, Fail> {
    let report = report_of(alloc, task, id, time)?;
    let allowed = report.is_allowed();
    assert!(rt; allowed);
    Ok(write_report(alloc, &report)?)
}

fn put(front: &mut FrontEnd, line: u32, moment: Option<u64>, report: Vec<u8>) -> Result<(), Fail> {
    let upload = Upload {
        line,
        moment,
        report: Bytes::new(report),
    };
    match front.put(upload) {
        Ok(()) => Ok(()),
        Err(_) => Err("the ring is full".into()),
    }
}

/// Puts these uploads from line 1 on, and behind them bytes that are no report.
fn put_all(
    rt: &impl Abort,
    alloc: Global,
    front: &mut FrontEnd,
    cases: &[Case],
) -> Result<(), Fail> {
    let mut line: u32 = 1;
    for &(task, id, time, moment, _) in cases {
        put(front, line, moment, report(rt, alloc, task, id, time)?)?;
        line = line.saturating_add(1);
    }
    put(front, line, None, b"no report".to_vec(alloc)?)
}

/// What these uploads are told, and the bytes behind them.
fn expected(alloc: Global, cases: &[Case]) -> Result<Vec<Told>, Fail> {
    let mut told = Vec::new(alloc);
    let mut line: u32 = 1;
    for &(_, _, _, _, cause) in cases {
        told.push((line, cause))?;
        line = line.saturating_add(1);
    }
    told.push((line, Some(Cause::Form)))?;
    Ok(told)
}

// ---- a lane over any disk, so that what a call promises isn't spelled out for the disk in memory again and again

/// The tasks `v`, which doesn't expire, and `x`, which expires at 1000, with buckets of 3600 units of time.
fn tasks(alloc: Global) -> Result<Tasks<Toy>, Fail> {
    let v = Name::new(b"v").ok_or("a name")?;
    let x = Name::new(b"x").ok_or("a name")?;
    let mut tasks = Tasks::new(alloc);
    if tasks
        .push(alloc, trial(v, Kind::Count, 3, 3600, None))
        .is_err()
    {
        return Err("no tasks".into());
    }
    if tasks
        .push(alloc, trial(x, Kind::Count, 3, 3600, Some(1000)))
        .is_err()
    {
        return Err("no tasks".into());
    }
    Ok(tasks)
}

/// Whether a log holds a journal over which the lane of this place may open.
fn is_sound<D: Disk>(alloc: Global, place: Place, log: &Log<D>) -> Result<bool, Fail>
    ensures { IfOk result (λ b. IsTrue b → (records : List Record) × Spells place log.now.records records) }
{
    let Ok(records) = read_records(alloc, log.records()) else {
        return Err("no records".into());
    };
    match legal(alloc, Part::Lane(place.lane), Node::Leader, &records)? {
        Some(_) => Ok(false),
        None => Ok(opens_fit(place, &records)),
    }
}

fn fates(alloc: Global) -> ListFates {
    ListFates::new(Vec::new(alloc), Fate::Deliver)
}

/// A lane over this log, with a front's end of its ring.
fn opened<D: Disk>(
    alloc: Global,
    place: Place,
    log: Log<D>,
) -> Result<(LeaderLane<Toy, D, ListFates>, FrontEnd), Fail>
    requires up { IsTrue log.up }
    requires place { IsPlace place }
{
    let tasks = tasks(alloc)?;
    if !is_sound(alloc, place, &log)? {
        return Err("no journal of the lane".into());
    }
    let (front, end) = plain(alloc)?;
    let Ok((there, _)) = link(alloc, fates(alloc), fates(alloc)) else {
        return Err("no link".into());
    };
    match LeaderLane::open(alloc, log, place, tasks, end, there) {
        Ok(lane) => Ok((lane, front)),
        Err(_) => Err("no lane".into()),
    }
}

fn pumped<V: Vdaf, D: Disk, T: Fates>(
    rt: &impl Abort,
    alloc: Global,
    lane: &mut LeaderLane<V, D, T>,
) -> Result<Pumped, LaneFault> {
    let up = lane.up();
    assert!(rt; up);
    lane.pump(alloc)
}

fn pumped_many<V: Vdaf, D: Disk, T: Fates>(
    rt: &impl Abort,
    alloc: Global,
    lane: &mut LeaderLane<V, D, T>,
    most: u8,
) -> Result<u8, LaneFault>
    requires some { 1 ≤ most }
    requires few { most ≤ 64 }
{
    let up = lane.up();
    assert!(rt; up);
    lane.pump_many(alloc, most)
}

/// What the uploads are told that were judged since the last call.
fn told<V: Vdaf, D: Disk, T: Fates>(
    rt: &impl Abort,
    alloc: Global,
    lane: &mut LeaderLane<V, D, T>,
) -> Result<Vec<Told>, Fail> {
    let up = lane.up();
    assert!(rt; up);
    let mut told = Vec::new(alloc);
    for answer in &lane.answers(alloc) {
        told.push((answer.line, answer.cause))?;
    }
    Ok(told)
}

fn check_told<V: Vdaf, D: Disk, T: Fates>(
    rt: &impl Abort,
    alloc: Global,
    lane: &mut LeaderLane<V, D, T>,
    cases: &[Case],
) -> Result<(), Fail> {
    assert_eq!(rt; told(rt, alloc, lane)?, expected(alloc, cases)?);
    assert_eq!(rt; told(rt, alloc, lane)?.len(), 0);
    Ok(())
}

/// Pumps these uploads one by one.
fn check_one_by_one<V: Vdaf, D: Disk, T: Fates>(
    rt: &impl Abort,
    alloc: Global,
    lane: &mut LeaderLane<V, D, T>,
    front: &mut FrontEnd,
    cases: &[Case],
) -> Result<(), Fail> {
    put_all(rt, alloc, front, cases)?;
    for _ in 0..=cases.len() {
        assert_eq!(rt; pumped(rt, alloc, lane), Ok(Pumped::Took));
    }
    assert_eq!(rt; pumped(rt, alloc, lane), Ok(Pumped::Empty));
    check_told(rt, alloc, lane, cases)
}

/// Pumps these uploads by blocks of at most so many, with these answers.
fn check_as_blocks<V: Vdaf, D: Disk, T: Fates>(
    rt: &impl Abort,
    alloc: Global,
    lane: &mut LeaderLane<V, D, T>,
    front: &mut FrontEnd,
    cases: &[Case],
    most: u8,
    answers: &[u8],
) -> Result<(), Fail>
    requires some { 1 ≤ most }
    requires few { most ≤ 64 }
{
    put_all(rt, alloc, front, cases)?;
    for &answer in answers {
        assert_eq!(rt; pumped_many(rt, alloc, lane, most), Ok(answer));
    }
    check_told(rt, alloc, lane, cases)
}

/// Pumps two uploads as a block and two alone, and restarts.
fn check_through_stops<V: Vdaf, D: Disk, T: Fates>(
    rt: &impl Abort,
    alloc: Global,
    lane: &mut LeaderLane<V, D, T>,
    front: &mut FrontEnd,
) -> Result<(), Fail> {
    put_all(rt, alloc, front, &AGAIN)?;
    assert_eq!(rt; pumped_many(rt, alloc, lane, 2), Ok(2));
    assert_eq!(rt; pumped(rt, alloc, lane), Ok(Pumped::Took));
    assert_eq!(rt; pumped(rt, alloc, lane), Ok(Pumped::Took));
    assert!(rt; !lane.stopped());
    check_told(rt, alloc, lane, &AGAIN)?;
    assert_eq!(rt; lane.restart(alloc), Ok(()));
    assert_eq!(rt; pumped(rt, alloc, lane), Ok(Pumped::Empty));
    Ok(())
}

/// How many restarts are refused, each as stopped, until one comes back.
fn refused_restarts<V: Vdaf, D: Disk, T: Fates>(
    rt: &impl Abort,
    alloc: Global,
    lane: &mut LeaderLane<V, D, T>,
) -> usize {
    for refused in 0..10 {
        if lane.restart(alloc).is_ok() {
            return refused;
        }
        assert!(rt; lane.stopped() && !lane.up());
    }
    10
}

/// Pumps these uploads until there is none more, again where memory runs out.
fn check_drained<V: Vdaf, D: Disk, T: Fates>(
    rt: &impl Abort,
    alloc: Global,
    lane: &mut LeaderLane<V, D, T>,
) -> Result<(), Fail> {
    for _ in 0..16 {
        let pumped = if lane.up() {
            lane.pump_many(alloc, 2)
        } else {
            match lane.restart(alloc) {
                Ok(()) => Ok(2),
                Err(fault) => Err(fault),
            }
        };
        match pumped {
            Ok(0) => return Ok(()),
            Ok(_) => {}
            Err(fault) => assert_eq!(rt; fault, LaneFault::NoMemory),
        }
    }
    Err("uploads are left".into())
}

fn check_in_want<V: Vdaf, D: Disk, T: Fates>(
    rt: &impl Abort,
    alloc: Global,
    lane: &mut LeaderLane<V, D, T>,
    front: &mut FrontEnd,
) -> Result<(), Fail> {
    put_all(rt, alloc, front, &CONFLICT)?;
    check_drained(rt, alloc, lane)?;
    check_told(rt, alloc, lane, &CONFLICT)
}

/// Reports of all identifiers that differ in their first byte below 64, as one block.
fn check_64<V: Vdaf, D: Disk, T: Fates>(
    rt: &impl Abort,
    alloc: Global,
    lane: &mut LeaderLane<V, D, T>,
    front: &mut FrontEnd,
) -> Result<(), Fail> {
    for id in 0..64 {
        put(front, 1, None, report(rt, alloc, b'v', id, 10)?)?;
    }
    assert_eq!(rt; pumped_many(rt, alloc, lane, 64), Ok(64));
    assert_eq!(rt; pumped_many(rt, alloc, lane, 64), Ok(0));
    Ok(())
}

/// A pump that is answered as stopped, seven restarts too, and the same uploads behind the next one.
fn check_stopped<V: Vdaf, D: Disk, T: Fates>(
    rt: &impl Abort,
    alloc: Global,
    lane: &mut LeaderLane<V, D, T>,
    front: &mut FrontEnd,
) -> Result<(), Fail> {
    put_all(rt, alloc, front, &EARLY)?;
    assert_eq!(rt; pumped_many(rt, alloc, lane, 2), Err(LaneFault::Stopped));
    assert!(rt; lane.stopped() && !lane.up());
    assert_eq!(rt; refused_restarts(rt, alloc, lane), 7);
    assert!(rt; !lane.stopped() && lane.up());
    assert_eq!(rt; pumped_many(rt, alloc, lane, 64), Ok(3));
    check_told(rt, alloc, lane, &EARLY)
}

fn into_disk<V: Vdaf, D: Disk, T: Fates>(lane: LeaderLane<V, D, T>) -> D {
    lane.into_parts().log.into_disk()
}

// ---- a lane over the disk in memory

type Lane = LeaderLane<Toy, MemDisk, ListFates>;

fn log_of(alloc: Global, bytes: Vec<u8>, stops: Vec<Stop>) -> Result<Log<MemDisk>, Fail>
    ensures up { IfOk result (λ log. IsTrue log.up) }
{
    match Log::open(alloc, MemDisk::new(alloc, bytes, stops, None)) {
        Ok(log) => Ok(log),
        Err(_) => Err("no log".into()),
    }
}

/// The second of two lanes over a disk with these bytes, which stops so.
fn second(alloc: Global, bytes: Vec<u8>, stops: Vec<Stop>) -> Result<(Lane, FrontEnd), Fail> {
    opened(alloc, SECOND, log_of(alloc, bytes, stops)?)
}

/// An only lane over a fresh disk, which stops so.
fn only(alloc: Global, stops: Vec<Stop>) -> Result<(Lane, FrontEnd), Fail> {
    opened(alloc, ONLY, log_of(alloc, Vec::new(alloc), stops)?)
}

/// How many records of the journal of these bytes are Accepts, and how many are Opens.
fn counted(alloc: Global, bytes: Vec<u8>) -> Result<(u32, u32), Fail> {
    let log = log_of(alloc, bytes, Vec::new(alloc))?;
    let Ok(records) = read_records(alloc, log.records()) else {
        return Err("no records".into());
    };
    let mut accepts: u32 = 0;
    let mut opens: u32 = 0;
    for record in &records {
        match record {
            Record::Accept(_) => accepts = accepts.saturating_add(1),
            Record::LeaderOpen(_, _, _) => opens = opens.saturating_add(1),
            _ => {}
        }
    }
    Ok((accepts, opens))
}

fn counted_on(alloc: Global, disk: &MemDisk) -> Result<(u32, u32), Fail> {
    counted(alloc, disk.bytes().to_vec(alloc)?)
}

/// The disk behind these uploads, pumped one by one.
fn one_by_one(rt: &impl Abort, alloc: Global, cases: &[Case]) -> Result<MemDisk, Fail> {
    let (mut lane, mut front) = second(alloc, Vec::new(alloc), Vec::new(alloc))?;
    check_one_by_one(rt, alloc, &mut lane, &mut front, cases)?;
    Ok(into_disk(lane))
}

#[test]
fn uploads_are_judged_one_by_one(rt: HostRuntime) -> Result<(), Fail> {
    let alloc = rt.alloc();
    one_by_one(&rt, alloc, &CAUSES)?;
    one_by_one(&rt, alloc, &CONFLICT)?;
    one_by_one(&rt, alloc, &EARLY)?;
    Ok(())
}

fn as_blocks(
    rt: &impl Abort,
    alloc: Global,
    cases: &[Case],
    most: u8,
    answers: &[u8],
) -> Result<(), Fail>
    requires some { 1 ≤ most }
    requires few { most ≤ 64 }
{
    let (mut lane, mut front) = second(alloc, Vec::new(alloc), Vec::new(alloc))?;
    check_as_blocks(rt, alloc, &mut lane, &mut front, cases, most, answers)
}

#[test]
fn uploads_are_judged_as_blocks(rt: HostRuntime) -> Result<(), Fail> {
    let alloc = rt.alloc();
    as_blocks(&rt, alloc, &CAUSES, 2, &[2, 2, 2, 2, 2, 2, 2, 0])?;
    as_blocks(&rt, alloc, &CAUSES, 5, &[5, 5, 4, 0])?;
    as_blocks(&rt, alloc, &CAUSES, 64, &[14, 0])?;
    as_blocks(&rt, alloc, &CONFLICT, 64, &[5, 0])?;
    as_blocks(&rt, alloc, &EARLY, 64, &[3, 0])
}

/// The disk behind these bytes and uploads, pumped as one block.
fn behind(
    rt: &impl Abort,
    alloc: Global,
    bytes: Vec<u8>,
    cases: &[Case],
    answers: &[u8],
) -> Result<MemDisk, Fail> {
    let (mut lane, mut front) = second(alloc, bytes, Vec::new(alloc))?;
    check_as_blocks(rt, alloc, &mut lane, &mut front, cases, 64, answers)?;
    Ok(into_disk(lane))
}

#[test]
fn a_closed_bucket_takes_no_report(rt: HostRuntime) -> Result<(), Fail> {
    let alloc = rt.alloc();
    let mut bytes = CLOSING.to_vec(alloc)?;
    bytes.extend_from_slice(&[0; 53])?;
    behind(&rt, alloc, bytes, &CLOSED, &[4, 0])?;
    Ok(())
}

#[test]
fn a_lane_goes_on_behind_its_records(rt: HostRuntime) -> Result<(), Fail> {
    let alloc = rt.alloc();
    let first = one_by_one(&rt, alloc, &AGAIN)?;
    let second = behind(&rt, alloc, first.bytes().to_vec(alloc)?, &LATER, &[3, 0])?;
    assert_eq!(rt; counted_on(alloc, &second)?, (2, 2));
    Ok(())
}

// ---- stops

/// How many Opens a journal has behind an opening, two blocks and a restart, where a call of its disk stops and leaves the
/// block's gate open or not.
fn opens_at(call: u64, opens: bool) -> u32 {
    if call < FIRST_BLOCK_AT {
        return if opens && call >= FIRST_BLOCK_AT - 2 {
            3
        } else {
            2
        };
    }
    if call < FIRST_BLOCK_AT + 8 { 3 } else { 2 }
}

/// The disk behind a stop.
fn through_stop(rt: &impl Abort, alloc: Global, stops: Vec<Stop>) -> Result<MemDisk, Fail> {
    let (mut lane, mut front) = second(alloc, Vec::new(alloc), stops)?;
    check_through_stops(rt, alloc, &mut lane, &mut front)?;
    Ok(into_disk(lane))
}

fn goes_on(rt: &impl Abort, alloc: Global, call: u64, image: Image) -> Result<(), Fail> {
    let opens = image == Image::New || image == Image::Fill(1);
    let disk = through_stop(rt, alloc, [Stop { call, image }].to_vec(alloc)?)?;
    assert_eq!(rt;
        counted_on(alloc, &disk)?,
        (2, opens_at(call, opens)),
        "{call} {image:?}"
    );
    Ok(())
}

#[test]
fn a_stop_at_each_call_is_gone_through(rt: HostRuntime) -> Result<(), Fail> {
    let alloc = rt.alloc();
    for call in FIRST_BLOCK_AT - 4..=FIRST_BLOCK_AT + 9 {
        for image in [Image::Old, Image::New, Image::Fill(1), Image::Fill(7)] {
            goes_on(&rt, alloc, call, image)?;
        }
    }
    Ok(())
}

/// So many stops at one call after another.
fn stops_from(alloc: Global, first: u64, count: u32) -> Result<Vec<Stop>, Fail> {
    let mut stops = Vec::new(alloc);
    let mut call = first;
    let image = Image::Old;
    for _ in 0..count {
        stops.push(Stop { call, image })?;
        call = call.saturating_add(1);
    }
    Ok(stops)
}

#[test]
fn stops_are_counted(rt: HostRuntime) -> Result<(), Fail> {
    let alloc = rt.alloc();
    let (mut lane, mut front) = second(
        alloc,
        Vec::new(alloc),
        stops_from(alloc, FIRST_BLOCK_AT, 71)?,
    )?;
    check_stopped(&rt, alloc, &mut lane, &mut front)
}

/// The disk behind a block of 64 uploads, which would stop at the block's fifth call.
fn behind_64(rt: &impl Abort, alloc: Global) -> Result<MemDisk, Fail> {
    let (mut lane, mut front) = only(alloc, stops_from(alloc, FIRST_BLOCK_AT + 4, 1)?)?;
    check_64(rt, alloc, &mut lane, &mut front)?;
    Ok(into_disk(lane))
}

#[test]
fn one_block_has_64_uploads(rt: HostRuntime) -> Result<(), Fail> {
    let alloc = rt.alloc();
    let disk = behind_64(&rt, alloc)?;
    assert_eq!(rt; counted_on(alloc, &disk)?, (64, 1));
    Ok(())
}

/// The disk behind a lane that wants memory at times, and stops in its first block.
fn behind_want(rt: &impl Abort, alloc: Global) -> Result<MemDisk, Fail> {
    let (mut lane, mut front) = second(
        alloc,
        Vec::new(alloc),
        stops_from(alloc, FIRST_BLOCK_AT + 2, 1)?,
    )?;
    check_in_want(rt, alloc, &mut lane, &mut front)?;
    Ok(into_disk(lane))
}

// Where one allocation of the lane fails, each upload is judged all the same, and once.
#[test]
fn no_upload_is_lost_for_want_of_memory(rt: HostRuntime) -> Result<(), Fail> {
    let alloc = rt.alloc();
    let disk = behind_want(&rt, alloc)?;
    assert_eq!(rt; counted_on(alloc, &disk)?, (3, 2));
    Ok(())
}
