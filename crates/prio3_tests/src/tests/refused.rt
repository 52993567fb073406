use super::steps::{ID, Stage, check_input, is_invalid};
use circuit_vector::VectorCircuit;
use field64::Field64;
use field128::Field128;
use flp_circuits::{Circuit, Count, Histogram, Sum};
use prio3_prep::init;
use prio3_share::shard;
use std::alloc::Global;
use std::test::Fail;
use stream_tests::SmallField;
use vdaf_api::{Role, ShardFault};

/// The largest numbers of the two fields.
const LAST_64: u128 = 18_446_744_069_414_584_320;

const LAST_128: u128 = 340_282_366_920_938_462_946_865_773_367_900_766_208;

#[test]
fn what_is_no_encoding_is_refused(rt: HostRuntime) -> Result<(), Fail> {
    let alloc = rt.alloc();
    let count = Count::<Field64>::new();
    for (number, wanted) in [
        (0, Stage::Prepared),
        (1, Stage::Prepared),
        (2, Stage::Combine),
        (LAST_64, Stage::Combine),
    ] {
        check_input(&rt, alloc, &count, 0, &[number], wanted)?;
    }
    let sum = Sum::<Field128>::new(2);
    for (numbers, wanted) in [
        ([0, 0], Stage::Prepared),
        ([1, 1], Stage::Prepared),
        ([2, 0], Stage::Combine),
        ([0, 2], Stage::Combine),
        ([1, LAST_128], Stage::Combine),
    ] {
        check_input(&rt, alloc, &sum, 1, &numbers, wanted)?;
    }
    let mut bounds = Vec::new(alloc);
    bounds.push(10)?;
    let histogram = Histogram::<Field128>::new(bounds);
    for (numbers, wanted) in [
        ([1, 0], Stage::Prepared),
        ([0, 1], Stage::Prepared),
        ([0, 0], Stage::Combine),
        ([1, 1], Stage::Combine),
        ([2, LAST_128], Stage::Combine),
    ] {
        check_input(&rt, alloc, &histogram, 2, &numbers, wanted)?;
    }
    Ok(())
}

// Two numbers of two bits each: every bit is one, also of the second number.
#[test]
fn what_is_no_list_is_refused(rt: HostRuntime) -> Result<(), Fail> {
    let alloc = rt.alloc();
    let vector = VectorCircuit::new(2, 2);
    for (numbers, wanted) in [
        ([0, 0, 0, 0], Stage::Prepared),
        ([1, 1, 1, 1], Stage::Prepared),
        ([2, 0, 0, 0], Stage::Combine),
        ([0, 2, 0, 0], Stage::Combine),
        ([1, 1, 1, LAST_128], Stage::Combine),
    ] {
        check_input(&rt, alloc, &vector, 3, &numbers, wanted)?;
    }
    Ok(())
}

// Of a count at the small field: under seed 1 each drawing has a value, under 973 that of the input is spent, under 2
// that of the wire seeds alone, and under 0 that of the proof.
#[test]
fn each_spent_drawing_is_told(rt: HostRuntime) -> Result<(), Fail> {
    let alloc = rt.alloc();
    let count = Count::<SmallField>::new();
    let id = 1_u128.to_be_bytes();
    for (seed, spent) in [(1_u128, false), (973, true), (2, true), (0, true)] {
        let got = match shard(alloc, &count, 0, &id, 1, &seed.to_be_bytes()) {
            Ok(_) => false,
            Err(ShardFault::Spent) => true,
            Err(fault) => return Err(fault.into()),
        };
        assert_eq!(rt; got, spent, "seed {seed}");
    }
    Ok(())
}

/// Whether a half of zeros is refused at once under a verify key.
fn is_refused<C: Circuit>(
    alloc: Global,
    c: &C,
    kind: u8,
    role: Role,
    verify: u128,
    public: &[u8],
    input: &[u8],
) -> Result<bool, Fail> {
    let key = verify.to_be_bytes();
    Ok(is_invalid(init(alloc, c, kind, role, &key, &ID, public, input))?)
}

// At the small field one number in 21 is an element. So the helper's input is spent, or its proof; and of the verify
// keys one gives a point, one none, and the others each point that is a root: 1 and 786432 where P is 2, and where it
// is 4 also 100025 and 686408.
#[test]
fn what_is_spent_or_a_root_is_invalid(rt: HostRuntime) -> Result<(), Fail> {
    let alloc = rt.alloc();
    let sum = Sum::<SmallField>::new(8);
    let count = Count::<SmallField>::new();
    assert!(rt; is_refused(alloc, &sum, 1, Role::Helper, 0, &[0; 32], &[0; 48])?);
    assert!(rt; is_refused(alloc, &count, 0, Role::Helper, 0, &[], &[1; 32])?);
    for (verify, refused) in [(0, false), (12, true), (91_691, true), (1_466_653, true)] {
        let got = is_refused(alloc, &count, 0, Role::Leader, verify, &[], &[0; 18])?;
        assert_eq!(rt; got, refused, "verify key {verify}");
    }
    let sum = Sum::<SmallField>::new(2);
    for (verify, refused) in [
        (0, false),
        (279_161, true),
        (122_458, true),
        (750_740, true),
        (3_426_052, true),
    ] {
        let got = is_refused(alloc, &sum, 1, Role::Leader, verify, &[0; 32], &[0; 46])?;
        assert_eq!(rt; got, refused, "verify key {verify}");
    }
    Ok(())
}
