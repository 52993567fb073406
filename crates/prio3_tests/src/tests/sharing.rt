ghost use Rattle.std.specs.Prelude.{◌≡◌};
ghost use Rattle.vdaf_api.specs.Kind.{AreBounds};

use aes_block::Key;
use aes_cmac_prg::cmac;
use circuit_vector::VectorCircuit;
use field_laws::Field;
use field64::Field64;
use field128::Field128;
use flp_circuits::{Circuit, Count, Histogram, Sum};
use prio3_share::{shard, shard_input, shard_list};
use std::alloc::Global;
use std::process::Abort;
use std::test::Fail;
use stream_tests::SmallField;
use vdaf_api::{Bounds, Kind, ShardFault, Shares};

/// What a report's shares have to be: their lengths, and their tags under the zero key.
#[derive(Clone, Copy)]
struct Expected {
    public: (usize, u128),
    leader: (usize, u128),
    helper: (usize, u128),
}

/// Identifier and seed of the first worked example.
fn first() -> [u8; 16] {
    1_u128.to_be_bytes()
}

fn check_tag(rt: &impl Abort, bytes: &[u8], expected: (usize, u128)) {
    assert_eq!(rt; bytes.len(), expected.0);
    let tag = cmac(&Key::new([0; 16]), bytes);
    assert_eq!(rt; u128::from_be_bytes(tag), expected.1);
}

fn check_shares(rt: &impl Abort, shares: &Shares, expected: Expected) {
    check_tag(rt, shares.public.as_slice(), expected.public);
    check_tag(rt, shares.leader.as_slice(), expected.leader);
    check_tag(rt, shares.helper.as_slice(), expected.helper);
}

fn check_report<C: Circuit>(
    rt: &impl Abort,
    alloc: Global,
    c: &C,
    kind: u8,
    m: u64,
    expected: Expected,
) -> Result<(), Fail> {
    let shares = shard(alloc, c, kind, &first(), m, &first())?;
    check_shares(rt, &shares, expected);
    Ok(())
}

#[test]
fn counts_are_shared_as_computed_elsewhere(rt: HostRuntime) -> Result<(), Fail> {
    let shares = shard(
        rt.alloc(),
        &Count::<Field64>::new(),
        0,
        &first(),
        1,
        &first(),
    )?;
    let leader: [u128; 3] = [
        0x5a1993337950a739613df18846921614,
        0xc6be1a2656e92918f7f1454b67ae376e,
        0xd212265439a932a9c4ccae03635b21a5,
    ];
    let helper: [u128; 2] = [
        0xcd0bdac73f8969c1abaead5f4cacddd3,
        0xe4cad09ba765b69bf96b37c1979aabaa,
    ];
    assert!(rt; shares.public.is_empty());
    assert_eq!(rt; shares.leader.len(), 48);
    assert_eq!(rt; shares.helper.len(), 32);
    for i in 0..3 {
        assert_eq!(rt;
            &shares.leader.as_slice()[16 * i..16 * i + 16],
            leader[i].to_be_bytes().as_slice()
        );
    }
    for i in 0..2 {
        assert_eq!(rt;
            &shares.helper.as_slice()[16 * i..16 * i + 16],
            helper[i].to_be_bytes().as_slice()
        );
    }
    Ok(())
}

#[test]
fn an_input_is_shared_as_its_measurement(rt: HostRuntime) -> Result<(), Fail> {
    let count = Count::<Field64>::new();
    let shares = shard(rt.alloc(), &count, 0, &first(), 1, &first())?;
    let given = shard_input(rt.alloc(), &count, 0, &first(), &[Field64::one()], &first())?;
    assert!(rt; given == shares);
    Ok(())
}

#[test]
fn sums_are_shared_as_computed_elsewhere(rt: HostRuntime) -> Result<(), Fail> {
    let helper = (48, 0xedd86fe2c16d6c252ed8ac4927cad753);
    let small = Expected {
        public: (32, 0x12c2832b70eb123597c09ecabec8cf9d),
        leader: (656, 0x23017fbfd4a319369d5a75087b5042e4),
        helper,
    };
    check_report(&rt, rt.alloc(), &Sum::<Field128>::new(8), 1, 200, small)?;
    let largest = Expected {
        public: (32, 0xe8ca5acbbad5a4fdd5292a62c8d7f3b0),
        leader: (5136, 0x83eeb28fc7f18b54f01541dd62333ea9),
        helper,
    };
    check_report(
        &rt,
        rt.alloc(),
        &Sum::<Field128>::new(64),
        1,
        u64::MAX,
        largest,
    )
}

/// Bounds that have to be those of a histogram.
fn checked(rt: &impl Abort, bounds: Bounds) -> Bounds
    ensures { AreBounds result }
{
    let kind = Kind::Histogram { bounds };
    assert!(rt; kind.is_valid());
    match kind {
        Kind::Histogram { bounds } => bounds,
        Kind::Count | Kind::Sum { .. } | Kind::Vector { .. } => panic!(rt; "not a histogram"),
    }
}

/// A histogram with `n` bounds, 10, 20 and so on.
fn tens(rt: &impl Abort, alloc: Global, n: u64) -> Result<Histogram<Field128>, Fail> {
    let mut bounds = Vec::new(alloc);
    for i in 0..n {
        bounds.push(i.wrapping_mul(10).wrapping_add(10))?;
    }
    Ok(Histogram::new(checked(rt, Bounds::new(bounds)).into_vec()))
}

#[test]
fn histograms_are_shared_as_computed_elsewhere(rt: HostRuntime) -> Result<(), Fail> {
    let helper = (48, 0x6d1d9463175ac7541fc9a1e820594d8a);
    let small = Expected {
        public: (32, 0x5aa922af9d3e40380d4959ede0ab86fc),
        leader: (336, 0x5e102e04b5deffb197941379cdc2928f),
        helper,
    };
    check_report(&rt, rt.alloc(), &tens(&rt, rt.alloc(), 3)?, 2, 25, small)?;
    let largest = Expected {
        public: (32, 0x17006bee9d09a5b9a111bc6b852d95ce),
        leader: (5136, 0xa22f85d1a0c3526885b4d798410e53db),
        helper,
    };
    check_report(
        &rt,
        rt.alloc(),
        &tens(&rt, rt.alloc(), 63)?,
        2,
        631,
        largest,
    )
}

#[test]
fn vectors_are_shared_as_computed_elsewhere(rt: HostRuntime) -> Result<(), Fail> {
    let vector = VectorCircuit::new(3, 8);
    let shares = shard_list(rt.alloc(), &vector, 3, &first(), &[1, 2, 3], &first())?;
    let expected = Expected {
        public: (32, 0x12135276ce8f9377ae693e0bb5256903),
        leader: (1424, 0xb3c339e548cc51d6d4b3d1203e88a4cf),
        helper: (48, 0x10b4c08f63cf845fec127c61c6ed7423),
    };
    check_shares(&rt, &shares, expected);
    for list in [[1, 2].as_slice(), [1, 2, 256].as_slice()] {
        let refused = shard_list(rt.alloc(), &vector, 3, &first(), list, &first());
        assert!(rt; matches!(refused, Err(ShardFault::BadValue)));
    }
    Ok(())
}

fn check_fault<C: Circuit>(
    rt: &impl Abort,
    alloc: Global,
    c: &C,
    kind: u8,
    m: u64,
    fault: ShardFault,
) {
    let refused =
        matches!(shard(alloc, c, kind, &first(), m, &first()), Err(cause) if cause == fault);
    assert!(rt; refused);
}

// At the small field one number in 21 is an element: of 8 the drawing is spent after 6, and of the 16 of a proof too.
#[test]
fn refusals_have_their_causes(rt: HostRuntime) {
    let alloc = rt.alloc();
    check_fault(
        &rt,
        alloc,
        &Count::<Field64>::new(),
        0,
        2,
        ShardFault::BadValue,
    );
    check_fault(
        &rt,
        alloc,
        &Sum::<SmallField>::new(8),
        1,
        200,
        ShardFault::Spent,
    );
    check_fault(
        &rt,
        alloc,
        &Sum::<SmallField>::new(4),
        1,
        9,
        ShardFault::Spent,
    );
    check_fault(
        &rt,
        alloc,
        &Sum::<SmallField>::new(4),
        1,
        16,
        ShardFault::BadValue,
    );
}
