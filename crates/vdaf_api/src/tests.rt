ghost use Rattle.std.specs.Prelude.{◌≡◌, ◌≤◌};
ghost use Rattle.vdaf_api.specs.Vectors.{SpaceLaws};

use super::*;
use std::alloc::Global;
use std::process::Abort;
use std::test::Fail;

/// Adds an out share to another.
fn add<V: Vdaf>(rt: &impl Abort, v: &V, sum: &mut [u8], out: &[u8]) {
    assert!(rt; v.is_out(sum));
    assert!(rt; v.is_out(out));
    v.add(sum, out);
}

/// The answer of two out shares.
fn answer_of<V: Vdaf>(
    rt: &impl Abort,
    alloc: Global,
    v: &V,
    leader: &[u8],
    helper: &[u8],
) -> Result<Answer, Fail> {
    assert!(rt; v.is_out(leader));
    assert!(rt; v.is_out(helper));
    Ok(v.answer(alloc, leader, helper)?)
}

/// The out share of each half and the answer of a report of one measurement, by the trait's calls alone.
fn prepared<V: Vdaf>(
    rt: &impl Abort,
    alloc: Global,
    v: &V,
    shares: &Shares,
) -> Result<(Vec<u8>, Vec<u8>, Answer), Fail> {
    let (key, id) = ([7; 16], [9; 16]);
    let public = shares.public.as_slice();
    let (leader, ours) = v
        .init(
            alloc,
            Role::Leader,
            &key,
            &id,
            public,
            shares.leader.as_slice(),
        )
        .expect(rt, "the leader's prep share");
    let (helper, theirs) = v
        .init(
            alloc,
            Role::Helper,
            &key,
            &id,
            public,
            shares.helper.as_slice(),
        )
        .expect(rt, "the helper's prep share");
    let message = v
        .combine(alloc, &ours, &theirs)
        .expect(rt, "the prep message");
    let mut sum = v.zero(alloc)?;
    let out = v
        .finish(alloc, &leader, &message)
        .expect(rt, "the leader's out share");
    add(rt, v, &mut sum, &out);
    let other = v
        .finish(alloc, &helper, &message)
        .expect(rt, "the helper's out share");
    let answer = answer_of(rt, alloc, v, &sum, &other)?;
    Ok((sum, other, answer))
}

#[test]
fn toy_shares_add_to_the_measurement(rt: HostRuntime) -> Result<(), Fail> {
    let alloc = rt.alloc();
    let toy = Toy::of(alloc, &Kind::Count)?;
    for (m, first, leader, helper) in [
        (5, 2, [3, 0, 0, 0, 0, 0, 0, 0], [2, 0, 0, 0, 0, 0, 0, 0]),
        (1, 2, [255; 8], [2, 0, 0, 0, 0, 0, 0, 0]),
        (
            4_294_967_295,
            255,
            [0, 255, 255, 255, 0, 0, 0, 0],
            [255, 0, 0, 0, 0, 0, 0, 0],
        ),
    ] {
        let mut seed = [0; 16];
        seed[0] = first;
        seed[8] = 1;
        let shares = toy.shard(alloc, &[9; 16], m, &seed).expect(&rt, "shares");
        let (leader_out, helper_out, answer) = prepared(&rt, alloc, &toy, &shares)?;
        assert_eq!(rt; leader_out.as_slice(), leader.as_slice(), "at {m}");
        assert_eq!(rt; helper_out.as_slice(), helper.as_slice(), "at {m}");
        assert!(rt; answer == Answer::Sum(u128::from(m)));
    }
    assert!(rt;
        matches!(
            toy.shard(alloc, &[9; 16], 4_294_967_296, &[0; 16]),
            Err(ShardFault::BadValue)
        )
    );
    Ok(())
}

#[test]
fn toy_takes_shares_of_8_bytes_alone(rt: HostRuntime) -> Result<(), Fail> {
    let alloc = rt.alloc();
    let toy = Toy::of(alloc, &Kind::Count)?;
    let (key, id) = ([7; 16], [9; 16]);
    for (public, input) in [
        ([].as_slice(), [0; 7].as_slice()),
        ([].as_slice(), [0; 9].as_slice()),
        ([0].as_slice(), [0; 8].as_slice()),
    ] {
        let started = toy.init(alloc, Role::Leader, &key, &id, public, input);
        assert!(rt; matches!(started, Err(PrepFault::Invalid)));
    }
    for (ours, theirs) in [
        ([].as_slice(), [0].as_slice()),
        ([0].as_slice(), [].as_slice()),
    ] {
        let message = toy.combine(alloc, ours, theirs);
        assert!(rt; matches!(message, Err(PrepFault::Invalid)));
    }
    let (state, _) = toy
        .init(alloc, Role::Helper, &key, &id, &[], &[0; 8])
        .expect(&rt, "a state");
    assert!(rt; matches!(toy.finish(alloc, &state, &[0]), Err(PrepFault::Invalid)));
    Ok(())
}

#[test]
fn kinds_keep_their_ranges(rt: HostRuntime) -> Result<(), Fail> {
    let alloc = rt.alloc();
    assert!(rt; Kind::Count.is_valid());
    for (bits, want) in [(0, false), (1, true), (64, true), (65, false)] {
        assert_eq!(rt; Kind::Sum { bits }.is_valid(), want, "{bits} bits");
    }
    for (bounds, want) in [
        ([].as_slice(), false),
        ([0].as_slice(), true),
        ([3, 3].as_slice(), false),
        ([0, 9, 8].as_slice(), false),
        ([0, 9, u64::MAX].as_slice(), true),
    ] {
        let kind = Kind::Histogram {
            bounds: Bounds::new(bounds.to_vec(alloc)?),
        };
        assert_eq!(rt; kind.is_valid(), want, "{} bounds", bounds.len());
        assert!(rt; kind.clone()? == kind && kind != Kind::Count);
    }
    Ok(())
}

// 89 numbers of 23 bits have 2,047 bits together, and 64 numbers of 32 bits have 2,048.
#[test]
fn vectors_keep_their_ranges(rt: HostRuntime) {
    for (len, bits, want) in [
        (0, 1, false),
        (1, 0, false),
        (1, 1, true),
        (1, 32, true),
        (1, 33, false),
        (63, 32, true),
        (64, 32, false),
        (89, 23, true),
        (1023, 2, true),
        (1024, 1, true),
        (1024, 2, false),
        (1025, 1, false),
        (u16::MAX, u8::MAX, false),
    ] {
        let kind = Kind::Vector { len, bits };
        assert_eq!(rt; kind.is_valid(), want, "{len} numbers of {bits} bits");
    }
    assert_eq!(rt;
        (MOST_NUMBERS, MOST_NUMBER_BITS, MOST_INPUT),
        (1024, 32, 2047)
    );
}

#[test]
fn the_toy_function_takes_lists_of_one_number(rt: HostRuntime) -> Result<(), Fail> {
    let alloc = rt.alloc();
    let toy = Toy::of(alloc, &Kind::Vector { len: 1, bits: 32 })?;
    for m in [0, 5, 4_294_967_295] {
        let one = toy
            .shard(alloc, &[9; 16], m, &[1; 16])
            .expect(&rt, "shares");
        let list = toy
            .shard_list(alloc, &[9; 16], &[m], &[1; 16])
            .expect(&rt, "shares");
        assert!(rt; one == list, "at {m}");
    }
    for list in [[].as_slice(), [4_294_967_296].as_slice(), [1, 2].as_slice()] {
        let refused = toy.shard_list(alloc, &[9; 16], list, &[1; 16]);
        assert!(rt;
            matches!(refused, Err(ShardFault::BadValue)),
            "{} numbers",
            list.len()
        );
    }
    Ok(())
}

#[test]
fn bounds_and_numbers_give_back_what_they_were_made_of(rt: HostRuntime) -> Result<(), Fail> {
    let alloc = rt.alloc();
    let bounds = Bounds::new([1, u64::MAX].to_vec(alloc)?);
    assert_eq!(rt; (bounds.len(), bounds.is_empty()), (2, false));
    assert_eq!(rt;
        bounds.clone()?.into_vec().as_slice(),
        [1, u64::MAX].as_slice()
    );
    let measurement = Measurement::new([7, u64::MAX].to_vec(alloc)?);
    assert_eq!(rt; (measurement.len(), measurement.is_empty()), (2, false));
    assert!(rt; measurement.clone()? == measurement);
    assert!(rt; measurement != Measurement::new(Vec::new(alloc)));
    assert_eq!(rt; measurement.into_vec().as_slice(), [7, u64::MAX].as_slice());
    let numbers = Numbers::new([1, u128::MAX].to_vec(alloc)?);
    assert_eq!(rt; (numbers.len(), numbers.is_empty()), (2, false));
    assert!(rt; numbers.clone()? == numbers && numbers != Numbers::new(Vec::new(alloc)));
    assert_eq!(rt; numbers.into_vec().as_slice(), [1, u128::MAX].as_slice());
    Ok(())
}

#[test]
fn the_limits_are_those_of_the_formats(rt: HostRuntime) {
    assert_eq!(rt;
        (MOST_PUBLIC, MOST_LEADER, MOST_HELPER),
        (32_000, 131_072 - 16, 32_000 - 16)
    );
    assert_eq!(rt; (MOST_STEP, MOST_OUT), (1024, 16 * 1024));
    assert_eq!(rt; (MOST_BITS, MOST_BOUNDS), (64, 1023));
}

#[test]
fn a_histogram_has_at_most_1023_bounds(rt: HostRuntime) -> Result<(), Fail> {
    let alloc = rt.alloc();
    for (size, want) in [(63, true), (64, true), (1023, true), (1024, false)] {
        let bounds: Vec<u64> = (0..size).collect(alloc)?;
        let kind = Kind::Histogram {
            bounds: Bounds::new(bounds),
        };
        assert_eq!(rt; kind.is_valid(), want, "{size} bounds");
    }
    Ok(())
}

/// Some numbers modulo 2^64 - 2^32 + 1.
fn numbers(size: usize) -> Space
    requires some { 1 ≤ size }
    requires few { size ≤ 8 }
    ensures laws { SpaceLaws result }
    ensures width { result.width ≡ 8 }
{
    Space {
        modulus: 18_446_744_069_414_584_321,
        width: 8,
        size,
    }
}

#[test]
fn vectors_of_each_length_add(rt: HostRuntime) -> Result<(), Fail> {
    let alloc = rt.alloc();
    for size in 1..9_usize {
        let space = numbers(size);
        let ones = vec![in alloc; 1u8; 8 * size]?;
        let zero = space.zero(alloc)?;
        assert!(rt; space.is_out(&ones) && space.is_out(&zero));
        let sums = space.sum_numbers(alloc, &ones, &ones)?;
        let kept = space.sum_numbers(alloc, &zero, &ones)?;
        assert_eq!(rt; (sums.len(), kept.len()), (size, size));
        for sum in &sums {
            assert_eq!(rt; *sum, 0x0202_0202_0202_0202, "{size} numbers");
        }
        for one in &kept {
            assert_eq!(rt; *one, 0x0101_0101_0101_0101, "{size} numbers");
        }
    }
    Ok(())
}

#[test]
fn out_shares_are_numbers_below_the_modulus(rt: HostRuntime) -> Result<(), Fail> {
    let alloc = rt.alloc();
    let space = numbers(2);
    let mut total = space.zero(alloc)?;
    let out = [1, 0, 0, 0, 0, 0, 0, 0, 0, 0, 0, 0, 255, 255, 255, 255];
    for wanted in [
        [1, 0, 0, 0, 0, 0, 0, 0, 0, 0, 0, 0, 255, 255, 255, 255],
        [
            2, 0, 0, 0, 0, 0, 0, 0, 255, 255, 255, 255, 254, 255, 255, 255,
        ],
    ] {
        assert!(rt; space.is_out(&total) && space.is_out(&out));
        let sum = space.sum(alloc, &total, &out)?;
        space.add(&mut total, &out);
        assert_eq!(rt; total.as_slice(), wanted.as_slice());
        assert_eq!(rt; sum.as_slice(), wanted.as_slice());
    }
    assert!(rt; space.is_out(&total) && space.is_out(&out));
    let numbers = space.numbers(alloc, &total)?;
    assert_eq!(rt;
        numbers.as_slice(),
        [2, 18_446_744_069_414_584_319].as_slice()
    );
    let sums = space.sum_numbers(alloc, &total, &out)?;
    assert_eq!(rt; sums.as_slice(), [3, 18_446_744_069_414_584_318].as_slice());
    let modulus = [0, 0, 0, 0, 0, 0, 0, 0, 1, 0, 0, 0, 255, 255, 255, 255];
    assert!(rt; !space.is_out(&modulus) && !space.is_out(&out[1..]) && !space.is_out(&[0; 17]));
    Ok(())
}
