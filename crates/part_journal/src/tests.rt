//! Journals over disks in memory: what they hold and answer where the disk stops, whatever it leaves.
ghost use Rattle.std.specs.Prelude.{◌≡◌, ◌∷◌, [], IfOk, IsTrue};
ghost use Rattle.dap_messages.specs.declared.code.Code.TheVariants.{BatchCollected, HpkeDecryptError};

use crate::*;
use dap_disk::{Disk, Image, MemDisk, Stop};
use dap_messages::{Code, Spelled};
use report_journal::Log;
use std::alloc::Global;
use std::process::Abort;
use std::test::Fail;

// Records of one byte. An opening of a log makes four calls of its disk, and each append makes four.
const OPEN: Code = Code::ReportReplayed;

const OPENS_AT: u64 = 5;

const FIRST_AT: u64 = 9;

const SECOND_AT: u64 = 13;

/// What an append answers.
type Answer = Result<Appended, PartFault>;

fn first_block(alloc: Global) -> Result<Vec<Code>, Fail>
    ensures { IfOk result (λ v. v.items ≡ BatchCollected ∷ []) }
{
    let mut block = Vec::new(alloc);
    block.push(Code::BatchCollected)?;
    Ok(block)
}

fn second_block(alloc: Global) -> Result<Vec<Code>, Fail>
    ensures { IfOk result (λ v. v.items ≡ HpkeDecryptError ∷ []) }
{
    let mut block = Vec::new(alloc);
    block.push(Code::HpkeDecryptError)?;
    Ok(block)
}

// Over any disk, so that what a call promises isn't spelled out for the disk in memory again and again.

fn opened<D: Disk>(
    rt: &impl Abort,
    alloc: Global,
    log: Log<D>,
) -> Result<PartJournal<D, Code>, PartRefused<D>>
    requires up { IsTrue log.up }
    requires rest { log.coming ≡ [] }
{
    let found = log.records().len();
    assert_eq!(rt; found, 0);
    PartJournal::open(alloc, log, Vec::new(alloc), OPEN)
}

fn append_first<D: Disk>(
    rt: &impl Abort,
    alloc: Global,
    journal: &mut PartJournal<D, Code>,
) -> Result<Answer, Fail> {
    let up = journal.up();
    assert!(rt; up);
    Ok(journal.append(alloc, first_block(alloc)?))
}

fn append_second<D: Disk>(
    rt: &impl Abort,
    alloc: Global,
    journal: &mut PartJournal<D, Code>,
) -> Result<Answer, Fail> {
    let up = journal.up();
    assert!(rt; up);
    Ok(journal.append(alloc, second_block(alloc)?))
}

/// How many of three restarts are refused, until one comes back.
fn refused_restarts<D: Disk>(alloc: Global, journal: &mut PartJournal<D, Code>) -> usize {
    for refused in 0..3 {
        if journal.up() || journal.restart(alloc).is_ok() {
            return refused;
        }
    }
    3
}

fn bytes_of(alloc: Global, records: &[Code]) -> Result<Vec<u8>, Fail> {
    let mut out = Vec::new(alloc);
    for code in records {
        out.push(code.byte())?;
    }
    Ok(out)
}

/// The bytes of the records and of the block in hand.
fn held<D: Disk>(
    alloc: Global,
    journal: &PartJournal<D, Code>,
) -> Result<(Vec<u8>, Vec<u8>), Fail> {
    Ok((
        bytes_of(alloc, journal.records())?,
        bytes_of(alloc, journal.in_hand())?,
    ))
}

fn into_disk<D: Disk>(journal: PartJournal<D, Code>) -> D {
    journal.into_log().into_disk()
}

// Over the disk in memory.

/// A log on a fresh disk.
fn fresh(alloc: Global, stops: Vec<Stop>, dead_from: Option<u64>) -> Result<Log<MemDisk>, Fail>
    ensures up { IfOk result (λ log. IsTrue log.up) }
    ensures rest { IfOk result (λ log. log.coming ≡ []) }
{
    match Log::open(
        alloc,
        MemDisk::new(alloc, Vec::new(alloc), stops, dead_from),
    ) {
        Ok(log) => Ok(log),
        Err(_) => Err("no log".into()),
    }
}

/// The journal of a fresh disk, where its opening isn't refused.
fn started(
    rt: &impl Abort,
    alloc: Global,
    stops: Vec<Stop>,
    dead_from: Option<u64>,
) -> Result<PartJournal<MemDisk, Code>, Fail> {
    match opened(rt, alloc, fresh(alloc, stops, dead_from)?) {
        Ok(journal) => Ok(journal),
        Err(_) => Err("no journal".into()),
    }
}

/// The bytes of the records, each of one byte, that a disk's journal holds.
fn bytes_on(alloc: Global, disk: &MemDisk) -> Result<Vec<u8>, Fail> {
    let bytes = disk.bytes().to_vec(alloc)?;
    let Ok(log) = Log::open(alloc, MemDisk::new(alloc, bytes, Vec::new(alloc), None)) else {
        return Err("no journal".into());
    };
    let mut out = Vec::new(alloc);
    for record in log.records() {
        out.extend_from_slice(record)?;
    }
    Ok(out)
}

/// What an append from a call on answers, and whether its block is found, where the disk stops at a call and leaves
/// the block's gate open or not.
fn answer_at(from: u64, call: u64, opens: bool) -> (Appended, bool) {
    if call < from || call - from > 3 {
        return (Appended::Done, true);
    }
    if call - from >= 2 && opens {
        return (Appended::Kept, true);
    }
    (Appended::Lost, false)
}

/// What the journal holds behind its opening and both appends.
fn records_at(alloc: Global, call: u64, opens: bool) -> Result<Vec<u8>, Fail> {
    let mut out = Vec::new(alloc);
    for (from, block) in [
        (OPENS_AT, [1].as_slice()),
        (FIRST_AT, &[0]),
        (SECOND_AT, &[4]),
    ] {
        let (answer, found) = answer_at(from, call, opens);
        if found {
            out.extend_from_slice(block)?;
        }
        if answer != Appended::Done {
            out.push(1)?;
        }
    }
    Ok(out)
}

/// An opening and two appends over a disk that stops at a call.
fn goes_on(rt: &impl Abort, alloc: Global, call: u64, image: Image) -> Result<(), Fail> {
    let opens = image == Image::New || image == Image::Fill(1);
    let mut journal = started(rt, alloc, [Stop { call, image }].to_vec(alloc)?, None)?;
    let answers = (
        append_first(rt, alloc, &mut journal)?,
        append_second(rt, alloc, &mut journal)?,
    );
    let (first, _) = answer_at(FIRST_AT, call, opens);
    let (second, found) = answer_at(SECOND_AT, call, opens);
    assert_eq!(rt; answers, (Ok(first), Ok(second)), "{call} {image:?}");
    assert_eq!(rt;
        (journal.up(), journal.fate()),
        (true, Some(found)),
        "{call} {image:?}"
    );
    let wanted = records_at(alloc, call, opens)?;
    let (records, in_hand) = held(alloc, &journal)?;
    assert_eq!(rt; records, wanted, "{call} {image:?}");
    assert_eq!(rt; in_hand.len(), 0, "{call} {image:?}");
    assert_eq!(rt;
        bytes_on(alloc, &into_disk(journal))?,
        wanted,
        "{call} {image:?}"
    );
    Ok(())
}

#[test]
fn a_stop_at_each_call_is_borne(rt: HostRuntime) -> Result<(), Fail> {
    let alloc = rt.alloc();
    for call in OPENS_AT..=SECOND_AT + 4 {
        for image in [Image::Old, Image::New, Image::Fill(1), Image::Fill(7)] {
            goes_on(&rt, alloc, call, image)?;
        }
    }
    Ok(())
}

/// So many stops, each so many calls behind the one before.
fn stops_from(alloc: Global, first: u64, step: u64, count: u32) -> Result<Vec<Stop>, Fail> {
    let mut stops = Vec::new(alloc);
    let mut call = first;
    let image = Image::Old;
    for _ in 0..count {
        stops.push(Stop { call, image })?;
        call = call.saturating_add(step);
    }
    Ok(stops)
}

/// What an append answers over a disk that stops so often, and how many restarts behind it are refused.
fn comes_back(
    rt: &impl Abort,
    alloc: Global,
    step: u64,
    count: u32,
) -> Result<(Answer, usize), Fail> {
    let mut journal = started(rt, alloc, stops_from(alloc, FIRST_AT, step, count)?, None)?;
    let answer = append_first(rt, alloc, &mut journal)?;
    let refused = refused_restarts(alloc, &mut journal);
    assert_eq!(rt;
        (journal.up(), journal.fate()),
        (true, Some(false)),
        "{step} {count}"
    );
    let (records, _) = held(alloc, &journal)?;
    assert_eq!(rt; records.as_slice(), [1, 1].as_slice(), "{step} {count}");
    Ok((answer, refused))
}

#[test]
fn the_last_stop_of_the_budget_is_answered(rt: HostRuntime) -> Result<(), Fail> {
    let alloc = rt.alloc();
    let stopped = Err(PartFault::Stopped);
    // Each call from the append's first on stops, or that call and the first one of each Open.
    for step in [1, 2] {
        for (count, want) in [
            (1, (Ok(Appended::Lost), 0)),
            (63, (Ok(Appended::Lost), 0)),
            (64, (stopped, 0)),
            (65, (stopped, 1)),
            (66, (stopped, 2)),
        ] {
            assert_eq!(rt;
                comes_back(&rt, alloc, step, count)?,
                want,
                "{step} {count}"
            );
        }
    }
    Ok(())
}

/// A disk that is dead from a restart on, and stops twice in an append.
fn stays_dead(rt: &impl Abort, alloc: Global, dead_from: u64) -> Result<(), Fail> {
    let stops = stops_from(alloc, FIRST_AT, 1, 2)?;
    let mut journal = started(rt, alloc, stops, Some(dead_from))?;
    let answer = append_first(rt, alloc, &mut journal)?;
    assert_eq!(rt; answer, Err(PartFault::Stopped), "{dead_from}");
    assert_eq!(rt; refused_restarts(alloc, &mut journal), 3, "{dead_from}");
    assert_eq!(rt;
        (journal.up(), journal.fate()),
        (false, None),
        "{dead_from}"
    );
    let (records, in_hand) = held(alloc, &journal)?;
    assert_eq!(rt;
        (records.as_slice(), in_hand.as_slice()),
        ([1].as_slice(), [0].as_slice())
    );
    Ok(())
}

#[test]
fn a_dead_disk_is_answered(rt: HostRuntime) -> Result<(), Fail> {
    let alloc = rt.alloc();
    stays_dead(&rt, alloc, 1)?;
    stays_dead(&rt, alloc, 2)
}

/// Why an opening is refused, and whether its log is up.
fn refused(
    rt: &impl Abort,
    alloc: Global,
    count: u32,
    dead_from: Option<u64>,
) -> Result<(PartFault, bool, usize), Fail> {
    let stops = stops_from(alloc, OPENS_AT, 1, count)?;
    match opened(rt, alloc, fresh(alloc, stops, dead_from)?) {
        Ok(_) => Err("it is open".into()),
        Err(refused) => Ok((refused.fault, refused.log.up(), refused.log.records().len())),
    }
}

#[test]
fn an_opening_is_refused_with_its_log(rt: HostRuntime) -> Result<(), Fail> {
    let alloc = rt.alloc();
    let want = (PartFault::Stopped, false, 0);
    assert_eq!(rt; refused(&rt, alloc, 64, None)?, want);
    assert_eq!(rt; refused(&rt, alloc, 1, Some(1))?, want);
    Ok(())
}

#[test]
fn a_copy_is_the_same(rt: HostRuntime) -> Result<(), Fail> {
    let alloc = rt.alloc();
    for code in [OPEN, Code::BatchCollected, Code::VdafPrepError] {
        assert_eq!(rt; copy_of(alloc, &code)?, code);
    }
    Ok(())
}

fn crosses_threads<T: Send>() {}

/// A part's journal goes to another thread where its disk and its records do.
fn a_part_crosses_threads<D: Disk + Send, R: Spelled + Send>() {
    crosses_threads::<PartJournal<D, R>>();
    crosses_threads::<PartRefused<D>>();
}

#[test]
fn a_part_over_memory_crosses_threads() {
    a_part_crosses_threads::<MemDisk, Code>()
}
