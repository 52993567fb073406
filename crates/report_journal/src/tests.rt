//! Journals on a disk in memory: what they leave, at stops and in files from outside.
ghost use Rattle.std.specs.Prelude.{◌≡◌, ◌≤◌, ◌<◌, ◌+◌, ◌∷◌, [], length, take, IfOk, IsTrue};
ghost use Rattle.report_journal.specs.Journal.{body};
ghost use Rattle.report_journal.specs.Log.{contents};

use crate::*;
use dap_bytes::LONGEST_BLOCK;
use dap_disk::{Disk, Image, MemDisk, Stop};
use std::alloc::Global;
use std::process::Abort;
use std::test::Fail;

/// A block of one record, which opens a leader's first lane.
const ONE: [u8; 14] = [1, 0, 0, 0, 8, 0, 0, 0, 4, 1, 1, 1, 0, 0];

/// That block, then one of the records `ab` and the empty one.
const TWO: [u8; 29] = [
    1, 0, 0, 0, 8, 0, 0, 0, 4, 1, 1, 1, 0, 1, 0, 0, 0, 10, 0, 0, 0, 2, b'a', b'b', 0, 0, 0, 0, 0,
];

/// A journal of format 1 that a lane carried over: its first Open, and that of format 2 of its next opening.
const CARRIED: [u8; 27] = [
    1, 0, 0, 0, 8, 0, 0, 0, 4, 1, 1, 1, 0, 1, 0, 0, 0, 8, 0, 0, 0, 4, 1, 2, 1, 0, 0,
];

/// The journal of a leader's front in format 1, as an independent program made it: four blocks of a record each.
const OUTSIDE: &[u8] =
    b"\x01\0\0\0\x07\0\0\0\x03!\x01\x01\x01\0\0\0@\0\0\0<\x22\x01v\0\0\0\0\x03\0\0\x0e\x10\xb8\xec\x9d\x96\xebAwW\x87\x8b\xfe\xd2.\xa8,\xba\xc6\x98\xe8\x06F;\xa2\xe4\xbd\x9f\xa6\xd2\xb9H\xc7\xb4,j\x19\x0c\xf62N\xd9r\xe3\xaa\xd3G\xa2\x88\xfb\x01\0\0\0\x0f\0\0\0\x0b#\x01v\0\0\0\0\0\0\0\0\x01\0\0\0/\0\0\0+$\x01v\0\0\0\0\0\0\0\0\0\0\0\x03\0\0\0\0\0\0\0\x08\xf4\xf0\x8c\xdfJ\xe7\x1b\x14\0\0\0\x08\x0f\x0fs \xb4\x18\xe4\xeb\0";

fn one_record(alloc: Global) -> Result<Vec<Vec<u8>>, Fail>
    ensures { IfOk result (λ r. contents r.items ≡ (1 ∷ 1 ∷ 1 ∷ 0 ∷ []) ∷ []) }
{
    let mut records = Vec::new(alloc);
    records.push([1, 1, 1, 0].to_vec(alloc)?)?;
    Ok(records)
}

fn three_records(alloc: Global) -> Result<Vec<Vec<u8>>, Fail>
    ensures { IfOk result (λ r. contents r.items ≡ (5 ∷ []) ∷ [] ∷ (1 ∷ 1 ∷ []) ∷ []) }
{
    let mut records = Vec::new(alloc);
    records.push([5].to_vec(alloc)?)?;
    records.push(Vec::new(alloc))?;
    records.push([1, 1].to_vec(alloc)?)?;
    Ok(records)
}

fn open_of_format_2(alloc: Global) -> Result<Vec<Vec<u8>>, Fail>
    ensures { IfOk result (λ r. contents r.items ≡ (1 ∷ 2 ∷ 1 ∷ 0 ∷ []) ∷ []) }
{
    let mut records = Vec::new(alloc);
    records.push([1, 2, 1, 0].to_vec(alloc)?)?;
    Ok(records)
}

fn zeros(alloc: Global, n: usize) -> Result<Vec<Vec<u8>>, Fail>
    requires { n ≤ 16777212 }
    ensures one { IfOk result (λ r. length r.items ≡ 1) }
    ensures size { IfOk result (λ r. length (body (contents r.items)) ≡ 4 + n) }
{
    let mut records = Vec::new(alloc);
    records.push(vec![in alloc; 0; n]?)?;
    Ok(records)
}

fn disk(alloc: Global, bytes: &[u8], stops: &[Stop]) -> Result<MemDisk, Fail>
    ensures { IfOk result (λ d. IsTrue (⟦<MemDisk as Disk>⟧.up d)) }
{
    Ok(MemDisk::new(alloc, bytes.to_vec(alloc)?, stops.to_vec(alloc)?, None))
}

/// How many records a file stands for, or why it is refused.
fn reads(alloc: Global, bytes: &[u8]) -> Result<Result<usize, LogFault>, Fail> {
    match Log::open(alloc, disk(alloc, bytes, &[])?) {
        Ok(log) => Ok(Ok(log.records().len())),
        Err(refused) => Ok(Err(refused.fault)),
    }
}

#[test]
fn a_fresh_disk_takes_a_record(rt: HostRuntime) -> Result<(), Fail> {
    let alloc = rt.alloc();
    let Ok(fresh) = Log::open(alloc, disk(alloc, &[], &[])?) else {
        return Err("no journal".into());
    };
    let made = fresh.into_disk();
    assert_eq!(rt; made.bytes(), [0].as_slice());
    let Ok(mut log) = Log::open(alloc, disk(alloc, &[1], &[])?) else {
        return Err("no journal".into());
    };
    let records = one_record(alloc)?;
    assert_eq!(rt; records.len(), 1);
    let outcome = log.append(alloc, &records);
    assert_eq!(rt; outcome, Ok(()));
    assert_eq!(rt; (log.up(), log.records().len()), (true, 1));
    let written = log.into_disk();
    assert_eq!(rt; written.bytes(), ONE.as_slice());
    Ok(())
}

/// How many records of a first block of one a restart finds, where the disk stops in the gate's write.
fn found_at_the_gate(rt: &impl Abort, alloc: Global, image: Image) -> Result<usize, Fail> {
    let Ok(mut log) = Log::open(alloc, disk(alloc, &[], &[Stop { call: 7, image }])?) else {
        return Err("no journal".into());
    };
    let records = one_record(alloc)?;
    assert_eq!(rt; records.len(), 1);
    let outcome = log.append(alloc, &records);
    assert_eq!(rt; outcome, Err(AppendFault::Down));
    let restarted = log.restart();
    assert_eq!(rt; restarted, Ok(()));
    Ok(log.records().len())
}

#[test]
fn the_gate_decides(rt: HostRuntime) -> Result<(), Fail> {
    let alloc = rt.alloc();
    for (image, want) in [(Image::Old, 0), (Image::New, 1), (Image::Fill(7), 0)] {
        assert_eq!(rt; found_at_the_gate(&rt, alloc, image)?, want, "{image:?}");
    }
    Ok(())
}

/// How many records there are where the disk stops at a call while a file is opened and takes a block: once it came back,
/// if the opening was through, and once the journal was opened anew.
fn found(
    rt: &impl Abort,
    alloc: Global,
    file: &[u8],
    block: &[Vec<u8>],
    stop: Stop,
) -> Result<(Option<usize>, Result<usize, LogFault>), Fail>
    requires some { 0 < length block.now }
    requires size { length (body (contents block.now)) ≤ 16777216 }
{
    let mut log = match Log::open(alloc, disk(alloc, file, &[stop])?) {
        Ok(log) => log,
        Err(mut refused) => {
            assert_eq!(rt; refused.fault, LogFault::Down);
            let restarted = refused.disk.restart();
            assert_eq!(rt; restarted, Ok(()));
            return Ok((None, reads(alloc, refused.disk.bytes())?));
        }
    };
    let outcome = log.append(alloc, block);
    assert_eq!(rt; outcome, Err(AppendFault::Down));
    let restarted = log.restart();
    assert_eq!(rt; restarted, Ok(()));
    let count = log.records().len();
    let left = log.into_disk();
    Ok((Some(count), reads(alloc, left.bytes())?))
}

/// What a stop may leave, and whether a gate that is written in it is open then.
const IMAGES: [(Image, bool); 4] = [
    (Image::Old, false),
    (Image::New, true),
    (Image::Fill(1), true),
    (Image::Fill(7), false),
];

#[test]
fn a_block_is_whole_or_absent(rt: HostRuntime) -> Result<(), Fail> {
    let alloc = rt.alloc();
    let records = three_records(alloc)?;
    assert_eq!(rt; records.len(), 3);
    for call in 1..9 {
        for (image, opens) in IMAGES {
            let want = if call >= 7 && opens { 3 } else { 0 };
            let told = if call < 5 { None } else { Some(want) };
            assert_eq!(rt;
                found(&rt, alloc, &[], &records, Stop { call, image })?,
                (told, Ok(want)),
                "{call} {image:?}"
            );
        }
    }
    Ok(())
}

#[test]
fn a_journal_of_format_1_is_carried_over_or_as_it_was(rt: HostRuntime) -> Result<(), Fail> {
    let alloc = rt.alloc();
    let records = open_of_format_2(alloc)?;
    assert_eq!(rt; records.len(), 1);
    for call in 1..8 {
        for (image, opens) in IMAGES {
            let want = if call >= 6 && opens { 2 } else { 1 };
            let told = if call < 4 { None } else { Some(want) };
            assert_eq!(rt;
                found(&rt, alloc, &ONE, &records, Stop { call, image })?,
                (told, Ok(want)),
                "{call} {image:?}"
            );
        }
    }
    let Ok(mut log) = Log::open(alloc, disk(alloc, &ONE, &[])?) else {
        return Err("no journal".into());
    };
    let outcome = log.append(alloc, &records);
    assert_eq!(rt; outcome, Ok(()));
    let written = log.into_disk();
    assert_eq!(rt; written.bytes(), CARRIED.as_slice());
    Ok(())
}

/// What a log answers whose first append stops at the first listed call, and that may bear so many stops in coming back;
/// how many of these are left, and how many records it holds.
fn comes_back(
    rt: &impl Abort,
    alloc: Global,
    stops: &[Stop],
    bears: u32,
) -> Result<(Result<(), RestartFault>, u32, usize), Fail> {
    let Ok(mut log) = Log::open(alloc, disk(alloc, &[], stops)?) else {
        return Err("no journal".into());
    };
    let records = one_record(alloc)?;
    assert_eq!(rt; records.len(), 1);
    let outcome = log.append(alloc, &records);
    assert_eq!(rt; outcome, Err(AppendFault::Down));
    let mut left = bears;
    assert!(rt; left > 0);
    let back = log.restart_through(&mut left);
    Ok((back, left, log.records().len()))
}

#[test]
fn a_log_comes_back_through_stops(rt: HostRuntime) -> Result<(), Fail> {
    let alloc = rt.alloc();
    let image = Image::New;
    let stops = [
        Stop { call: 7, image },
        Stop { call: 8, image },
        Stop { call: 9, image },
    ];
    assert_eq!(rt; comes_back(&rt, alloc, &stops[..1], 2)?, (Ok(()), 2, 1));
    assert_eq!(rt; comes_back(&rt, alloc, &stops[..2], 2)?, (Ok(()), 1, 1));
    assert_eq!(rt;
        comes_back(&rt, alloc, &stops, 2)?,
        (Err(RestartFault::Down), 0, 0)
    );
    Ok(())
}

#[test]
fn a_block_of_the_greatest_size_is_taken(rt: HostRuntime) -> Result<(), Fail> {
    let alloc = rt.alloc();
    let Ok(mut log) = Log::open(alloc, disk(alloc, &[], &[])?) else {
        return Err("no journal".into());
    };
    let records = zeros(alloc, LONGEST_BLOCK - 4)?;
    let outcome = log.append(alloc, &records);
    assert_eq!(rt; outcome, Ok(()));
    let written = log.into_disk();
    assert_eq!(rt; written.bytes().len(), LONGEST_BLOCK + 6);
    Ok(())
}

/// Two records of zeros.
fn two_records(alloc: Global, n: usize, m: usize) -> Result<Vec<Vec<u8>>, Fail>
    requires { n ≤ 16777212 }
    ensures some { IfOk result (λ r. 0 < length r.items) }
    ensures first { IfOk result (λ r. length (body (contents (take 1 r.items))) ≡ 4 + n) }
{
    let mut records = Vec::new(alloc);
    records.push(vec![in alloc; 0; n]?)?;
    records.push(vec![in alloc; 0; m]?)?;
    Ok(records)
}

#[test]
fn a_block_takes_all_that_fits(rt: HostRuntime) -> Result<(), Fail> {
    let alloc = rt.alloc();
    let whole = two_records(alloc, LONGEST_BLOCK - 12, 4)?;
    assert_eq!(rt; fitting(&whole), 2);
    let over = two_records(alloc, LONGEST_BLOCK - 12, 5)?;
    assert_eq!(rt; fitting(&over), 1);
    Ok(())
}

#[test]
fn a_file_cut_short_is_refused_at_its_open_gate(rt: HostRuntime) -> Result<(), Fail> {
    let alloc = rt.alloc();
    for (from, to, want) in [
        (0, 2, Ok(0)),
        (2, 14, Err(LogFault::NotAJournal { at: 0 })),
        (14, 29, Err(LogFault::NotAJournal { at: 13 })),
        (29, 30, Ok(3)),
    ] {
        for length in from..to {
            let file = TWO.get(..length).ok_or("too long")?;
            assert_eq!(rt; reads(alloc, file)?, want, "{length}");
        }
    }
    Ok(())
}

#[test]
fn files_are_read_by_their_gates(rt: HostRuntime) -> Result<(), Fail> {
    let alloc = rt.alloc();
    let refused = Err(LogFault::NotAJournal { at: 0 });
    for (file, want) in [
        ([1, 0].as_slice(), refused),
        (&[1], Ok(0)),
        (&[7], Ok(0)),
        (&[0, 1, 9], Ok(0)),
        (&[1, 0, 0, 0, 0, 0], refused),
        (&[1, 0, 0, 0, 3, 0, 0, 0, 0], refused),
        (&[1, 0, 0, 0, 4, 0, 0, 0, 0, 0], Ok(1)),
        (&[1, 0, 0, 0, 5, 0, 0, 0, 0, 9, 0], refused),
        (&[1, 0, 0, 0, 5, 0, 0, 0, 1, 9, 2], Ok(1)),
        (&[1, 1, 0, 0, 1, 0, 0, 0, 0], refused),
    ] {
        assert_eq!(rt; reads(alloc, file)?, want, "{file:?}");
    }
    Ok(())
}

#[test]
fn a_journal_from_outside_is_opened(rt: HostRuntime) -> Result<(), Fail> {
    let alloc = rt.alloc();
    let places = [(9, 12), (21, 81), (90, 101), (110, 153)];
    let Ok(log) = Log::open(alloc, disk(alloc, OUTSIDE, &[])?) else {
        return Err("no journal".into());
    };
    assert_eq!(rt; log.records().len(), places.len());
    for (record, (from, to)) in log.records().iter().zip(places) {
        assert_eq!(rt; Some(record.as_slice()), OUTSIDE.get(from..to));
    }
    Ok(())
}

/// How many records a reading finds from a place on, in how many blocks, or why it is refused. The bytes stay.
fn reads_from(
    rt: &impl Abort,
    alloc: Global,
    bytes: &[u8],
    start: u64,
) -> Result<Result<(usize, usize), ReadOnlyFault>, Fail> {
    let mut read = disk(alloc, bytes, &[])?;
    let outcome = read_blocks(alloc, &mut read, start);
    assert_eq!(rt; read.bytes(), bytes);
    match outcome {
        Ok(blocks) => Ok(Ok((blocks.records.len(), blocks.count))),
        Err(fault) => Ok(Err(fault)),
    }
}

#[test]
fn a_reading_counts_blocks_and_writes_nothing(rt: HostRuntime) -> Result<(), Fail> {
    let alloc = rt.alloc();
    for (file, start, want) in [
        ([].as_slice(), 0, Ok((0, 0))),
        (&[1], 0, Ok((0, 0))),
        (&ONE, 0, Ok((1, 1))),
        (&TWO, 0, Ok((3, 2))),
        (&TWO, 13, Ok((2, 1))),
        (&TWO, 28, Ok((0, 0))),
        (&TWO, 30, Ok((0, 0))),
        (&TWO[..28], 0, Err(ReadOnlyFault::NotAJournal { at: 13 })),
        (&[1, 0], 0, Err(ReadOnlyFault::NotAJournal { at: 0 })),
    ] {
        assert_eq!(rt;
            reads_from(&rt, alloc, file, start)?,
            want,
            "{file:?} {start}"
        );
    }
    Ok(())
}

#[test]
fn a_reading_ends_where_the_disk_stops(rt: HostRuntime) -> Result<(), Fail> {
    let alloc = rt.alloc();
    let image = Image::Old;
    for (call, want) in [(1, None), (2, None), (3, Some(3))] {
        let mut read = disk(alloc, &TWO, &[Stop { call, image }])?;
        let found = match read_only(alloc, &mut read) {
            Ok(records) => Some(records.len()),
            Err(fault) => {
                assert_eq!(rt; fault, ReadOnlyFault::Down);
                None
            }
        };
        assert_eq!(rt; found, want, "{call}");
    }
    Ok(())
}

fn crosses_threads<T: Send>() {}

/// A log goes to another thread where its disk does.
fn a_log_crosses_threads<D: Disk + Send>() {
    crosses_threads::<Log<D>>()
}

#[test]
fn a_log_over_memory_crosses_threads() {
    a_log_crosses_threads::<MemDisk>()
}
