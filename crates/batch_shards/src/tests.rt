ghost use Rattle.std.specs.Prelude.{◌≡◌, ◌≤◌};
ghost use Rattle.vdaf_api.specs.Vectors.{SpaceLaws};

use crate::bucket::Bucket;
use crate::{BucketFault, Buckets, Count};
use dap_bytes::{Id, Name};
use std::alloc::{AllocError, Global};
use std::process::Abort;
use std::test::Fail;
use vdaf_api::{Space, Toy, Vdaf};

const P64: u128 = 18_446_744_069_414_584_321;

const P128: u128 = 340_282_366_920_938_462_946_865_773_367_900_766_209;

const FIRST: Id = [0, 0, 0, 0, 0, 0, 0, 0, 0, 0, 0, 0, 0, 0, 0, 1];

const SECOND: Id = [0, 1, 2, 3, 4, 5, 6, 7, 8, 9, 10, 11, 12, 13, 14, 15];

/// The exclusive or of both identifiers' SHA-256 digests.
const BOTH: [u8; 32] = [
    0xc2, 0x79, 0x06, 0x36, 0xbe, 0xc1, 0xf5, 0xc5, 0xfb, 0x35, 0xfd, 0xa2, 0xb4, 0x4a, 0x84, 0xdb,
    0x3c, 0xc6, 0xe2, 0x64, 0x0d, 0x73, 0xf0, 0x36, 0x59, 0x01, 0x8c, 0x8f, 0x1d, 0x0a, 0x8c, 0xb8,
];

#[test]
fn a_closed_batch_takes_no_more(rt: HostRuntime) -> Result<(), Fail> {
    let alloc = rt.alloc();
    let name = Name::new(b"v").expect(&rt, "a name");
    let mut buckets = Buckets::new(alloc);
    let toy = Toy {};
    let out = [7, 0, 0, 0, 0, 0, 0, 128];
    assert!(rt; toy.is_out(&out));
    buckets.add(&toy, &name, 0, &FIRST, &out)?;
    buckets.add(&toy, &name, 0, &SECOND, &out)?;
    buckets.reject(&name, 0)?;
    buckets.close(&name, 0)?;
    buckets.close(&name, 0)?;
    assert_eq!(rt;
        buckets.add(&toy, &name, 0, &FIRST, &out),
        Err(BucketFault::Closed)
    );
    assert_eq!(rt; buckets.reject(&name, 0), Err(BucketFault::Closed));
    let other = Name::new(b"w").expect(&rt, "a name");
    buckets.reject(&other, 0)?;
    buckets.reject(&name, 1)?;
    buckets.reject(&name, 3600)?;
    buckets.close(&name, 10_800)?;
    assert_eq!(rt; buckets.reject(&name, 10_800), Err(BucketFault::Closed));
    let total = buckets.total(&toy, &name, 0)?;
    assert_eq!(rt; total.as_slice(), [14, 0, 0, 0, 0, 0, 0, 0].as_slice());
    let none = buckets.total(&toy, &name, 7200)?;
    assert_eq!(rt; none.as_slice(), [0; 8].as_slice());
    Ok(())
}

#[test]
fn a_batch_counts_its_reports(rt: HostRuntime) -> Result<(), Fail> {
    let name = Name::new(b"v").expect(&rt, "a name");
    let none = Count {
        reports: 0,
        rejected: 0,
        checksum: [0; 32],
        closed: false,
    };
    assert_eq!(rt; Buckets::new(rt.alloc()).count(&name, 0), none);
    let toy = Toy {};
    let out = [1, 0, 0, 0, 0, 0, 0, 0];
    assert!(rt; toy.is_out(&out));
    let mut bucket = Bucket::new();
    bucket.add(rt.alloc(), &toy.space(), &FIRST, &out)?;
    bucket.reject()?;
    bucket.add(rt.alloc(), &toy.space(), &SECOND, &out)?;
    let want = Count {
        reports: 2,
        rejected: 1,
        checksum: BOTH,
        closed: false,
    };
    assert_eq!(rt; bucket.count(), want);
    bucket.close();
    assert_eq!(rt;
        bucket.count(),
        Count {
            closed: true,
            ..want
        }
    );
    Ok(())
}

#[test]
fn numbers_stand_still_at_their_end(rt: HostRuntime) -> Result<(), Fail> {
    let toy = Toy {};
    let out = [1, 0, 0, 0, 0, 0, 0, 0];
    assert!(rt; toy.is_out(&out));
    let mut bucket = Bucket::new();
    bucket.reports = 18_446_744_073_709_551_614;
    bucket.rejected = 18_446_744_073_709_551_614;
    bucket.add(rt.alloc(), &toy.space(), &FIRST, &out)?;
    bucket.reject()?;
    assert_eq!(rt; bucket.reports, 18_446_744_073_709_551_615);
    assert_eq!(rt; bucket.rejected, 18_446_744_073_709_551_615);
    bucket.add(rt.alloc(), &toy.space(), &FIRST, &out)?;
    bucket.reject()?;
    assert_eq!(rt; bucket.reports, 18_446_744_073_709_551_615);
    assert_eq!(rt; bucket.rejected, 18_446_744_073_709_551_615);
    Ok(())
}

#[test]
fn faults_are_printed(rt: HostRuntime) -> Result<(), Fail> {
    let alloc = rt.alloc();
    for (fault, text) in [
        (BucketFault::Closed, "the batch is closed"),
        (BucketFault::NoMemory, "no memory"),
    ] {
        assert_eq!(rt; format!(in alloc; "{fault}")?.as_str(), text);
    }
    Ok(())
}

#[test]
fn a_batch_with_room_is_added_to_in_place(rt: HostRuntime) -> Result<(), Fail> {
    let alloc = rt.alloc();
    let name = Name::new(b"v").expect(&rt, "a name");
    let mut buckets = Buckets::new(alloc);
    let toy = Toy {};
    let out = [7, 0, 0, 0, 0, 0, 0, 128];
    assert!(rt; toy.is_out(&out));
    buckets.ready(&toy, &name, 0)?;
    let none = buckets.total(&toy, &name, 0)?;
    assert_eq!(rt; none.as_slice(), [0; 8].as_slice());
    buckets.add_in_place(&toy, &name, 0, &FIRST, &out);
    buckets.reject_in_place(&name, 0);
    buckets.close_in_place(&name, 0);
    let total = buckets.total(&toy, &name, 0)?;
    assert_eq!(rt; total.as_slice(), out.as_slice());
    assert_eq!(rt; buckets.reject(&name, 0), Err(BucketFault::Closed));
    buckets.reject(&name, 3600)?;
    Ok(())
}

/// The bytes of numbers, the lowest first.
fn spelled(alloc: Global, width: usize, numbers: &[u128]) -> Result<Vec<u8>, AllocError>
    requires { width ≤ 16 }
{
    let mut bytes = Vec::new(alloc);
    for number in numbers {
        bytes.extend_from_slice(&number.to_le_bytes()[..width])?;
    }
    Ok(bytes)
}

fn check_sum(
    rt: &impl Abort,
    alloc: Global,
    space: &Space,
    outs: [&[u128]; 3],
    want: &[u128],
) -> Result<(), Fail>
    requires { SpaceLaws space.now }
{
    let [first, second, third] = outs;
    let first = spelled(alloc, space.width, first)?;
    let second = spelled(alloc, space.width, second)?;
    let third = spelled(alloc, space.width, third)?;
    assert!(rt; space.is_out(&first) && space.is_out(&second) && space.is_out(&third));
    let mut bucket = Bucket::new();
    bucket.add(alloc, space, &FIRST, &first)?;
    bucket.add(alloc, space, &SECOND, &second)?;
    bucket.add(alloc, space, &FIRST, &third)?;
    let want = spelled(alloc, space.width, want)?;
    let total = bucket.total(alloc, space)?;
    assert_eq!(rt; total.as_slice(), want.as_slice());
    Ok(())
}

fn space_of_64_bits() -> Space
    ensures { SpaceLaws result }
{
    Space {
        modulus: P64,
        width: 8,
        size: 1,
    }
}

fn space_of_128_bits(size: usize) -> Space
    requires some { 1 ≤ size }
    requires few { size ≤ 64 }
    ensures { SpaceLaws result }
{
    Space {
        modulus: P128,
        width: 16,
        size,
    }
}

#[test]
fn sums_are_those_of_the_fields(rt: HostRuntime) -> Result<(), Fail> {
    let alloc = rt.alloc();
    check_sum(
        &rt,
        alloc,
        &space_of_64_bits(),
        [&[P64 - 1], &[P64 - 2], &[5]],
        &[2],
    )?;
    check_sum(
        &rt,
        alloc,
        &space_of_128_bits(1),
        [&[P128 - 1], &[P128 - 2], &[7]],
        &[4],
    )?;
    let outs: [&[u128]; 3] = [&[P128 - 1, 1, 2], &[1, P128 - 1, P128 - 209], &[0, 3, 400]];
    check_sum(&rt, alloc, &space_of_128_bits(3), outs, &[0, 3, 193])
}

/// The value again. It may be moved to another thread, and shared with it.
fn shared<T: Send + Sync>(value: T) -> T {
    value
}

#[test]
fn a_table_may_be_shared_with_workers(rt: HostRuntime) -> Result<(), Fail> {
    let name = Name::new(b"v").expect(&rt, "a name");
    let mut buckets = shared(Buckets::new(rt.alloc()));
    buckets.close(&name, 0)?;
    assert_eq!(rt; buckets.reject(&name, 0), Err(BucketFault::Closed));
    Ok(())
}
