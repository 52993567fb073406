//! Stops of a disk in memory, and a disk that tells nothing.
ghost use Rattle.std.specs.Prelude.{◌≡◌, ◌∷◌, [], Some, IsTrue};

mod blind;

use super::*;
use blind::Blind;
use std::alloc::Global;
use std::process::Abort;
use std::test::Fail;

/// A write over the end, a cut into what was written, and a sync.
fn change<D: Disk>(disk: &mut D) -> Result<(), StoreFault>
    requires up { IsTrue (D.up disk.old) }
    requires held { D.holds disk.old ≡ Some (1 ∷ 2 ∷ 3 ∷ []) }
{
    disk.write_at(1, &[8, 8, 8])?;
    disk.cut(2)?;
    disk.sync()?;
    Ok(())
}

/// What is left where the disk stops at a call.
fn left_at(rt: &impl Abort, alloc: Global, call: u64, image: Image) -> Result<Vec<u8>, Fail> {
    let stops = [Stop { call, image }].to_vec(alloc)?;
    let mut disk = MemDisk::new(alloc, [1, 2, 3].to_vec(alloc)?, stops, None);
    let outcome = change(&mut disk);
    let stopped = outcome == Err(StoreFault::Down);
    assert_eq!(rt; stopped, call <= 3);
    let restarted = disk.restart();
    assert_eq!(rt; restarted, Ok(()));
    Ok(disk.bytes().to_vec(alloc)?)
}

#[test]
fn a_stop_leaves_the_listed_image(rt: HostRuntime) -> Result<(), Fail> {
    let alloc = rt.alloc();
    for (call, image, want) in [
        (1, Image::Old, [1, 2, 3].as_slice()),
        (1, Image::New, &[1, 8, 8, 8]),
        (1, Image::Fill(7), &[1, 7, 7, 7]),
        (2, Image::Old, &[1, 2, 3]),
        (2, Image::New, &[1, 8]),
        (2, Image::Fill(7), &[1, 7, 7, 7]),
        (3, Image::Old, &[1, 2, 3]),
        (3, Image::New, &[1, 8]),
        (3, Image::Fill(7), &[1, 7, 7, 7]),
        (4, Image::Old, &[1, 8]),
    ] {
        let left = left_at(&rt, alloc, call, image)?;
        assert_eq!(rt; left.as_slice(), want, "call {call}, {image:?}");
    }
    Ok(())
}

/// A write that only looks come after, and a sync.
fn change_and_look<D: Disk>(disk: &mut D) -> Result<(), StoreFault>
    requires up { IsTrue (D.up disk.old) }
    requires held { D.holds disk.old ≡ Some (1 ∷ 2 ∷ 3 ∷ []) }
{
    disk.write_at(1, &[8])?;
    let mut buf = [0; 2];
    disk.len()?;
    disk.read(0, &mut buf)?;
    disk.sync()?;
    Ok(())
}

#[test]
fn calls_count_from_1_looks_sync_nothing_and_the_first_listing_counts(
    rt: HostRuntime,
) -> Result<(), Fail> {
    let alloc = rt.alloc();
    for (call, image, want) in [
        (1, Image::Old, [1, 2, 3]),
        (2, Image::Old, [1, 2, 3]),
        (3, Image::Fill(7), [1, 7, 3]),
        (4, Image::Old, [1, 2, 3]),
        (5, Image::Old, [1, 8, 3]),
    ] {
        let other = Stop {
            call,
            image: Image::New,
        };
        let stops = [Stop { call, image }, other].to_vec(alloc)?;
        let mut disk = MemDisk::new(alloc, [1, 2, 3].to_vec(alloc)?, stops, None);
        let outcome = change_and_look(&mut disk);
        assert_eq!(rt; outcome.is_err(), call <= 4);
        let restarted = disk.restart();
        assert_eq!(rt; restarted, Ok(()));
        assert_eq!(rt; disk.bytes(), want.as_slice(), "call {call}");
    }
    Ok(())
}

/// A write with no sync behind it.
fn write_front<D: Disk>(disk: &mut D, byte: u8) -> Result<(), StoreFault>
    requires up { IsTrue (D.up disk.old) }
{
    disk.write_at(0, &[byte])
}

#[test]
fn a_restart_without_a_stop_leaves_every_change_and_is_no_call(
    rt: HostRuntime,
) -> Result<(), Fail> {
    let alloc = rt.alloc();
    let stops = [Stop {
        call: 2,
        image: Image::Old,
    }]
    .to_vec(alloc)?;
    let mut disk = MemDisk::new(alloc, [1, 2].to_vec(alloc)?, stops, None);
    for (byte, outcome, want) in [
        (8, Ok(()), [8, 2]),
        (9, Err(StoreFault::Down), [8, 2]),
        (7, Ok(()), [7, 2]),
    ] {
        let restarted = disk.restart();
        assert_eq!(rt; restarted, Ok(()));
        let written = write_front(&mut disk, byte);
        assert_eq!(rt; written, outcome);
        let restarted = disk.restart();
        assert_eq!(rt; restarted, Ok(()));
        assert_eq!(rt; disk.bytes(), want.as_slice());
    }
    Ok(())
}

#[test]
fn a_dead_disk_stays_dead(rt: HostRuntime) -> Result<(), Fail> {
    let alloc = rt.alloc();
    let mut disk = MemDisk::new(alloc, [5].to_vec(alloc)?, Vec::new(alloc), Some(2));
    for want in [Ok(()), Err(Dead), Err(Dead)] {
        let restarted = disk.restart();
        assert_eq!(rt; restarted, want);
    }
    Ok(())
}

#[test]
fn reads_give_what_is_there(rt: HostRuntime) -> Result<(), Fail> {
    let alloc = rt.alloc();
    for (at, want, bytes) in [(0, 2, [5, 6]), (2, 1, [7, 0]), (3, 0, [0, 0])] {
        let mut disk = MemDisk::new(alloc, [5, 6, 7].to_vec(alloc)?, Vec::new(alloc), None);
        let len = disk.len();
        assert_eq!(rt; len, Ok(3));
        let mut buf = [0, 0];
        let read = disk.read(at, &mut buf);
        assert_eq!(rt; read, Ok(want));
        assert_eq!(rt; buf, bytes);
    }
    Ok(())
}

#[test]
fn a_disk_that_tells_nothing_takes_calls(rt: HostRuntime) {
    let mut disk = Blind::new();
    let written = write_synced(&mut disk, 9, b"abc");
    assert_eq!(rt; written, Ok(()));
    let cut = cut_synced(&mut disk, 2);
    assert_eq!(rt; cut, Err(StoreFault::Down));
}
