//! Pairs of disks in memory: which is live, what gives them a head, what packs them, and what a stop leaves of each.
ghost use Rattle.std.specs.Prelude.{◌≡◌, ◌∷◌, [], IfOk, IsTrue};
ghost use Rattle.report_journal.specs.Log.{contents};

use crate::*;
use dap_disk::{Disk, Image, MemDisk, Stop};
use report_journal::{AppendFault, Log, ReadOnlyFault, read_blocks};
use std::alloc::Global;
use std::process::Abort;
use std::test::Fail;

/// Two blocks of one record each, without a head.
const PLAIN: [u8; 27] = [
    1, 0, 0, 0, 8, 0, 0, 0, 4, 1, 1, 1, 0, 1, 0, 0, 0, 8, 0, 0, 0, 4, 1, 2, 1, 0, 0,
];

/// The same records in one block, with generation 1.
const PACKED: [u8; 31] = [
    2, 0, 0, 0, 0, 0, 0, 0, 1, 1, 0, 0, 0, 16, 0, 0, 0, 4, 1, 1, 1, 0, 0, 0, 0, 4, 1, 2, 1, 0, 0,
];

/// Generation 1 and no block.
const EMPTY: [u8; 10] = [2, 0, 0, 0, 0, 0, 0, 0, 1, 0];

/// Generation 256 and a block of the empty record.
const LATER: [u8; 19] = [2, 0, 0, 0, 0, 0, 0, 1, 0, 1, 0, 0, 0, 4, 0, 0, 0, 0, 0];

fn disk(alloc: Global, bytes: &[u8], stops: &[Stop]) -> Result<MemDisk, Fail>
    ensures { IfOk result (λ d. IsTrue (⟦<MemDisk as Disk>⟧.up d)) }
{
    Ok(MemDisk::new(alloc, bytes.to_vec(alloc)?, stops.to_vec(alloc)?, None))
}

fn one_record(alloc: Global) -> Result<Vec<Vec<u8>>, Fail>
    ensures { IfOk result (λ r. contents r.items ≡ (1 ∷ 1 ∷ 1 ∷ 0 ∷ []) ∷ []) }
{
    let mut records = Vec::new(alloc);
    records.push([1, 1, 1, 0].to_vec(alloc)?)?;
    Ok(records)
}

/// How many records a pair stands for and in how many blocks, or why it is no journal. An opening writes nothing.
fn reads(
    rt: &impl Abort,
    alloc: Global,
    a: &[u8],
    b: &[u8],
) -> Result<Result<(usize, usize), ReadOnlyFault>, Fail> {
    let Ok(mut pair) = PairDisk::open(disk(alloc, a, &[])?, disk(alloc, b, &[])?) else {
        return Err("no pair".into());
    };
    let outcome = read_blocks(alloc, &mut pair, 0);
    let (first, second) = pair.into_disks();
    assert_eq!(rt; first.bytes(), a);
    assert_eq!(rt; second.bytes(), b);
    match outcome {
        Ok(blocks) => Ok(Ok((blocks.records.len(), blocks.count))),
        Err(fault) => Ok(Err(fault)),
    }
}

#[test]
fn the_greatest_generation_is_live(rt: HostRuntime) -> Result<(), Fail> {
    let alloc = rt.alloc();
    for (a, b, want) in [
        ([].as_slice(), [].as_slice(), Ok((0, 0))),
        (&PLAIN, &[], Ok((2, 2))),
        (&[], &PLAIN, Ok((0, 0))),
        (&PLAIN, &PACKED, Ok((2, 1))),
        (&PACKED, &PLAIN, Ok((2, 1))),
        (&PACKED, &EMPTY, Ok((2, 1))),
        (&EMPTY, &PACKED, Ok((0, 0))),
        (&PACKED, &LATER, Ok((1, 1))),
        (&PACKED[..8], &PLAIN, Ok((0, 0))),
        (&[2, 0, 0, 0, 0, 0, 0, 0, 0, 1, 0], &PLAIN, Ok((0, 0))),
        (
            &PACKED[..30],
            &PLAIN,
            Err(ReadOnlyFault::NotAJournal { at: 0 }),
        ),
        (&PACKED[..9], &PLAIN, Ok((0, 0))),
    ] {
        assert_eq!(rt; reads(&rt, alloc, a, b)?, want, "{a:?} {b:?}");
    }
    Ok(())
}

/// How many records of a first block of one are there where the second disk stops at a call of the append, once the
/// pair came back, and once it was opened anew.
fn found(rt: &impl Abort, alloc: Global, call: u64, image: Image) -> Result<(usize, usize), Fail> {
    let stops = [Stop { call, image }];
    let Ok(pair) = PairDisk::open(disk(alloc, &PLAIN, &[])?, disk(alloc, &EMPTY, &stops)?) else {
        return Err("no pair".into());
    };
    let Ok(mut log) = Log::open(alloc, pair) else {
        return Err("no journal".into());
    };
    let records = one_record(alloc)?;
    assert_eq!(rt; records.len(), 1);
    let outcome = log.append(alloc, &records);
    assert_eq!(rt; outcome, Err(AppendFault::Down));
    let restarted = log.restart();
    assert_eq!(rt; restarted, Ok(()));
    let count = log.records().len();
    let (a, b) = log.into_disk().into_disks();
    let Ok((again, _)) = reads(rt, alloc, a.bytes(), b.bytes())? else {
        return Err("no journal".into());
    };
    Ok((count, again))
}

#[test]
fn a_stop_in_a_gate_of_a_headed_pair_leaves_no_other_head(rt: HostRuntime) -> Result<(), Fail> {
    let alloc = rt.alloc();
    for (call, image, want) in [
        (6, Image::New, 0),
        (7, Image::Fill(2), 0),
        (8, Image::Old, 0),
        (8, Image::New, 1),
        (8, Image::Fill(2), 0),
        (9, Image::New, 1),
    ] {
        assert_eq!(rt;
            found(&rt, alloc, call, image)?,
            (want, want),
            "{call} {image:?}"
        );
    }
    Ok(())
}

#[test]
fn an_opening_that_stops_gives_the_disks_back(rt: HostRuntime) -> Result<(), Fail> {
    let alloc = rt.alloc();
    let image = Image::Old;
    for call in 1..3 {
        let stops = [Stop { call, image }];
        let Err(refused) = PairDisk::open(disk(alloc, &PLAIN, &[])?, disk(alloc, &EMPTY, &stops)?)
        else {
            return Err("it opened".into());
        };
        assert_eq!(rt; refused.a.bytes(), PLAIN.as_slice());
        assert_eq!(rt; refused.b.bytes(), EMPTY.as_slice());
    }
    Ok(())
}

/// Two disks after a head, and the generation that is live.
fn headed(rt: &impl Abort, alloc: Global, a: &[u8], b: &[u8]) -> Result<(MemDisk, MemDisk), Fail> {
    let Ok(pair) = PairDisk::open(disk(alloc, a, &[])?, disk(alloc, b, &[])?) else {
        return Err("no pair".into());
    };
    let Ok(pair) = pair.head() else {
        return Err("no head".into());
    };
    let (first, second) = pair.into_disks();
    assert_eq!(rt; first.bytes(), a);
    Ok((first, second))
}

#[test]
fn a_pair_gets_a_head_where_it_begins_with_no_block(rt: HostRuntime) -> Result<(), Fail> {
    let alloc = rt.alloc();
    for (a, b, want) in [
        ([].as_slice(), [].as_slice(), EMPTY.as_slice()),
        (&[1], &[], &EMPTY),
        (&[1, 0], &[], &[]),
        (&[0, 0], &[7, 8, 9], &EMPTY),
        (&[2, 1], &[0], &EMPTY),
        (&[2, 0, 0, 0, 0, 0, 0, 0, 0, 1, 0], &PLAIN, &EMPTY),
        (&[0], &[2, 0, 0, 0, 0, 0, 0, 0, 0, 1, 0], &EMPTY),
        (&[0], &PACKED[..8], &EMPTY),
        (&PLAIN, &PLAIN, &PLAIN),
        (&[], &PACKED, &PACKED),
        (&LATER, &[], &[]),
        (&LATER, &EMPTY, &EMPTY),
    ] {
        let (_, second) = headed(&rt, alloc, a, b)?;
        assert_eq!(rt; second.bytes(), want, "{a:?} {b:?}");
    }
    Ok(())
}

/// What a checkpoint of these files makes: whether it packed, and what the disks then hold.
fn packed(
    alloc: Global,
    a: &[u8],
    b: &[u8],
    over: u32,
) -> Result<Result<(bool, Vec<u8>, Vec<u8>), CheckFault>, Fail> {
    let Ok(pair) = PairDisk::open(disk(alloc, a, &[])?, disk(alloc, b, &[])?) else {
        return Err("no pair".into());
    };
    match pair.checkpoint(alloc, over) {
        Ok((pair, packed)) => {
            let (first, second) = pair.into_disks();
            Ok(Ok((
                packed,
                first.bytes().to_vec(alloc)?,
                second.bytes().to_vec(alloc)?,
            )))
        }
        Err(refused) => Ok(Err(refused.fault)),
    }
}

#[test]
fn a_journal_of_more_blocks_is_packed(rt: HostRuntime) -> Result<(), Fail> {
    let alloc = rt.alloc();
    let mut again = PACKED;
    again[8] = 2;
    for (a, b, over, want) in [
        (
            PLAIN.as_slice(),
            [].as_slice(),
            2,
            (false, PLAIN.as_slice(), [].as_slice()),
        ),
        (&PLAIN, &[], 1, (true, &PLAIN, &PACKED)),
        (&PLAIN, &[], 0, (true, &PLAIN, &PACKED)),
        (&PLAIN, &[9, 9], 1, (true, &PLAIN, &PACKED)),
        (&PACKED, &[], 1, (false, &PACKED, &[])),
        (&PACKED, &PLAIN, 0, (true, &PACKED, &again)),
        (&[], &PACKED, 0, (true, &again, &PACKED)),
        (&[], &[], 0, (false, &[], &[])),
        (&EMPTY, &[], 0, (false, &EMPTY, &[])),
    ] {
        let outcome = packed(alloc, a, b, over)?;
        let Ok((made, first, second)) = outcome else {
            return Err("it was refused".into());
        };
        assert_eq!(rt;
            (made, first.as_slice(), second.as_slice()),
            want,
            "{a:?} {b:?} {over}"
        );
    }
    Ok(())
}

#[test]
fn a_checkpoint_is_refused(rt: HostRuntime) -> Result<(), Fail> {
    let alloc = rt.alloc();
    let mut last = PACKED;
    let mut late = PACKED;
    for i in 1..9 {
        last[i] = 255;
        late[i] = 255;
    }
    late[8] = 254;
    let refused = packed(alloc, &[1, 0], &[], 0)?;
    assert!(rt; matches!(refused, Err(CheckFault::NotAJournal { at: 0 })));
    let refused = packed(alloc, &PACKED[..30], &PLAIN, 0)?;
    assert!(rt; matches!(refused, Err(CheckFault::NotAJournal { at: 0 })));
    let refused = packed(alloc, &last, &[], 0)?;
    assert!(rt; matches!(refused, Err(CheckFault::Last)));
    let stays = packed(alloc, &last, &[], 1)?;
    assert!(rt; matches!(stays, Ok((false, _, _))));
    let Ok((made, first, second)) = packed(alloc, &late, &[], 0)? else {
        return Err("it was refused".into());
    };
    assert_eq!(rt;
        (made, first.as_slice(), second.as_slice()),
        (true, late.as_slice(), last.as_slice())
    );
    Ok(())
}

/// What is left of two disks of which one stopped.
#[derive(Drop)]
struct Stopped {
    a: MemDisk,
    b: MemDisk,
}

/// Opens and packs a pair of which one disk stops at a call; the disks, where it did.
fn checkpoint_through(alloc: Global, second: bool, stop: Stop) -> Result<Option<Stopped>, Fail> {
    let stops = [stop];
    let (of_a, of_b) = if second {
        ([].as_slice(), stops.as_slice())
    } else {
        (stops.as_slice(), [].as_slice())
    };
    let pair = match PairDisk::open(disk(alloc, &PLAIN, of_a)?, disk(alloc, &[], of_b)?) {
        Ok(pair) => pair,
        Err(refused) => {
            return Ok(Some(Stopped {
                a: refused.a,
                b: refused.b,
            }));
        }
    };
    match pair.checkpoint(alloc, 1) {
        Ok(_) => Ok(None),
        Err(refused) => Ok(Some(Stopped {
            a: refused.a,
            b: refused.b,
        })),
    }
}

/// At how many calls of a disk a checkpoint was stopped; each time the pair stands for both records once it came back.
fn stands_through(rt: &impl Abort, alloc: Global, second: bool, image: Image) -> Result<u64, Fail> {
    for call in 1..40 {
        let Some(left) = checkpoint_through(alloc, second, Stop { call, image })? else {
            return Ok(call - 1);
        };
        let mut a = left.a;
        let mut b = left.b;
        let back = if second { b.restart() } else { a.restart() };
        assert_eq!(rt; back, Ok(()));
        let outcome = reads(rt, alloc, a.bytes(), b.bytes())?;
        assert!(rt; matches!(outcome, Ok((2, 1 | 2))), "{call} {image:?}");
    }
    Err("it never ends".into())
}

#[test]
fn a_stop_in_a_checkpoint_loses_no_record(rt: HostRuntime) -> Result<(), Fail> {
    let alloc = rt.alloc();
    for image in [Image::Old, Image::New, Image::Fill(2)] {
        assert_eq!(rt; stands_through(&rt, alloc, false, image)?, 6);
        assert_eq!(rt; stands_through(&rt, alloc, true, image)?, 12);
    }
    Ok(())
}

#[test]
fn a_stop_in_the_first_gate_of_two_empty_disks_leaves_no_record(
    rt: HostRuntime,
) -> Result<(), Fail> {
    let alloc = rt.alloc();
    let image = Image::Fill(2);
    let stops = [Stop { call: 18, image }];
    let Ok(pair) = PairDisk::open(disk(alloc, &[], &[])?, disk(alloc, &[], &stops)?) else {
        return Err("no pair".into());
    };
    let Ok(pair) = pair.head() else {
        return Err("no head".into());
    };
    let Ok(mut log) = Log::open(alloc, pair) else {
        return Err("no journal".into());
    };
    let records = one_record(alloc)?;
    assert_eq!(rt; records.len(), 1);
    let outcome = log.append(alloc, &records);
    assert_eq!(rt; outcome, Err(AppendFault::Down));
    let restarted = log.restart();
    assert_eq!(rt; restarted, Ok(()));
    assert_eq!(rt; log.records().len(), 0);
    let (a, b) = log.into_disk().into_disks();
    let front = b.bytes().get(..10).ok_or("too short")?;
    assert_eq!(rt; front, [2, 0, 0, 0, 0, 0, 0, 0, 1, 2].as_slice());
    assert_eq!(rt; reads(&rt, alloc, a.bytes(), b.bytes())?, Ok((0, 0)));
    Ok(())
}
