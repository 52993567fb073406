use crate::cases::{CASES_64, CASES_128, Case};
use field_laws::{
    Field, add_all, bytes_spell_elements, elements_are_their_numbers, halves_make_one,
    multiply_by_doubling, products_are_zero_by_a_factor, results_are_modular, ring_is_commutative,
    roots_are_few, roots_have_their_order, roots_of_one_are_different,
};
use field64::Field64;
use field128::Field128;
use std::alloc::Global;
use std::process::Abort;
use std::test::Fail;

/// Calls each law at the type, which has them by its instance alone.
fn has_laws<F: Field>() {
    results_are_modular::<F>();
    ring_is_commutative::<F>();
    elements_are_their_numbers::<F>();
    roots_have_their_order::<F>();
    halves_make_one::<F>();
    bytes_spell_elements::<F>();
    products_are_zero_by_a_factor::<F>();
    roots_are_few::<F>();
    roots_of_one_are_different::<F>();
}

fn check_value(rt: &impl Abort, value: u128, want: u128) {
    assert_eq!(rt; value, want);
}

fn check_cases<F: Field>(rt: &impl Abort, cases: &[Case]) {
    for case in cases {
        let a = F::of(case.a);
        let b = F::of(case.b);
        check_value(rt, a.add(b).value(), case.sum);
        check_value(rt, a.sub(b).value(), case.difference);
        check_value(rt, a.neg().value(), case.negative);
        check_value(rt, a.mul(b).value(), case.product);
        check_value(rt, a.pow(case.b).value(), case.power);
    }
}

const HALF_64: u128 = 0x7fffffff80000001;

const HALF_128: u128 = 0x7ffffffffffffff20000000000000001;

/// Roots of order 1, 2, 4, 2^12 and 2^16.
const ROOTS_64: [u128; 5] = [
    1,
    0xffffffff00000000,
    0x1000000000000,
    0xf2c35199959dfcb6,
    0x54df9630bf79450e,
];

const ROOTS_128: [u128; 5] = [
    1,
    0xffffffffffffffe40000000000000000,
    0xdf4981abeb6a99b803fc828afa9f535f,
    0x641ce1699e23c149022651ee1d057592,
    0x6ea6bedd1603659b2ce8f04c79a3886b,
];

/// Zero, one, two, the two last numbers below p, and the limbs' ends.
const EDGES_64: [u128; 9] = [
    0,
    1,
    2,
    0xffff_ffff_0000_0000,
    0xffff_fffe_ffff_ffff,
    1 << 32,
    1 << 63,
    (1 << 64) - 1,
    1 << 127,
];

const EDGES_128: [u128; 9] = [
    0,
    1,
    2,
    0xffff_ffff_ffff_ffe4_0000_0000_0000_0000,
    0xffff_ffff_ffff_ffe3_ffff_ffff_ffff_ffff,
    1 << 32,
    1 << 63,
    (1 << 64) - 1,
    1 << 127,
];

fn check_elements<F: Field>(rt: &impl Abort, half: u128, roots: [u128; 5]) {
    check_value(rt, F::zero().value(), 0);
    check_value(rt, F::one().value(), 1);
    check_value(rt, F::half().value(), half);
    check_value(rt, F::of(F::MODULUS).value(), 0);
    let [first, second, fourth, twelfth, last] = roots;
    check_value(rt, F::root(0).value(), first);
    check_value(rt, F::root(1).value(), second);
    check_value(rt, F::root(2).value(), fourth);
    check_value(rt, F::root(12).value(), twelfth);
    check_value(rt, F::root(16).value(), last);
}

fn check_bytes<F: Field>(
    rt: &impl Abort,
    alloc: Global,
    value: u128,
    bytes: &[u8],
) -> Result<(), Fail> {
    let mut out = Vec::new(alloc);
    F::of(value).put(&mut out)?;
    assert_eq!(rt; out.as_slice(), bytes);
    assert_eq!(rt; F::decode(bytes).map(|x| x.value()), Some(value));
    Ok(())
}

fn check_sum<F: Field>(rt: &impl Abort, to: &mut [F], from: &[F], want: &[u128]) {
    assert_eq!(rt; to.len(), from.len());
    add_all(to, from);
    for (sum, want) in to.iter().zip(want) {
        check_value(rt, sum.value(), *want);
    }
}

/// A plain linear congruence, for numbers that no one chose.
struct Drawn {
    state: u64,
}

impl Drawn {
    fn half(&mut self) -> u64 {
        self.state = self
            .state
            .wrapping_mul(6_364_136_223_846_793_005)
            .wrapping_add(1_442_695_040_888_963_407);
        self.state
    }

    fn next(&mut self) -> u128 {
        let high = self.half();
        u128::from(high) * (1 << 64) + u128::from(self.half())
    }
}

fn check_product<F: Field>(rt: &impl Abort, a: u128, b: u128) {
    let a = F::of(a);
    let b = F::of(b);
    assert!(rt; a.mul(b).is_same(multiply_by_doubling(a, b)));
    assert!(rt; !a.is_same(a.add(F::one())));
}

fn check_products<F: Field>(rt: &impl Abort, edges: &[u128]) {
    for a in edges {
        for b in edges {
            check_product::<F>(rt, *a, *b);
        }
    }
    let mut drawn = Drawn { state: 2026 };
    for _ in 0..3_000u32 {
        check_product::<F>(rt, drawn.next(), drawn.next());
    }
    let Drawn { state: _ } = drawn;
}

fn is_sent<T: Send + Sync + Copy>(_value: T) {}

#[test]
fn calls_answer_as_python_does(rt: HostRuntime) {
    has_laws::<Field64>();
    has_laws::<Field128>();
    check_elements::<Field64>(&rt, HALF_64, ROOTS_64);
    check_elements::<Field128>(&rt, HALF_128, ROOTS_128);
    check_cases::<Field64>(&rt, &CASES_64);
    check_cases::<Field128>(&rt, &CASES_128);
    let [one, two, three, four] = [1, 2, 3, 4].map(Field64::of);
    check_sum(&rt, &mut [three, four], &[one, two], &[4, 6]);
    let [one, two, three, four] = [1, 2, 3, 4].map(Field128::of);
    check_sum(&rt, &mut [three, four], &[one, two], &[4, 6]);
    is_sent(Field64::one());
    is_sent(Field128::one());
}

#[test]
fn bytes_go_both_ways(rt: HostRuntime) -> Result<(), Fail> {
    let last_64 = [0, 0, 0, 0, 255, 255, 255, 255];
    check_bytes::<Field64>(&rt, rt.alloc(), 18_446_744_069_414_584_320, &last_64)?;
    check_bytes::<Field64>(&rt, rt.alloc(), 0x0102, &[2, 1, 0, 0, 0, 0, 0, 0])?;
    assert_eq!(rt; Field64::decode(&[1, 0, 0, 0, 255, 255, 255, 255]), None);
    assert_eq!(rt; Field64::decode(&last_64[..7]), None);
    assert_eq!(rt; Field64::decode(&[0; 9]), None);

    let last_128 = [
        0, 0, 0, 0, 0, 0, 0, 0, 0xe4, 255, 255, 255, 255, 255, 255, 255,
    ];
    check_bytes::<Field128>(&rt, rt.alloc(), EDGES_128[3], &last_128)?;
    let modulus_128 = [
        1, 0, 0, 0, 0, 0, 0, 0, 0xe4, 255, 255, 255, 255, 255, 255, 255,
    ];
    assert_eq!(rt; Field128::decode(&modulus_128), None);
    assert_eq!(rt; Field128::decode(&last_128[..15]), None);
    assert_eq!(rt; Field128::decode(&[0; 17]), None);
    Ok(())
}

#[test]
fn products_by_form_are_those_by_doubling(rt: HostRuntime) {
    check_products::<Field64>(&rt, &EDGES_64);
    check_products::<Field128>(&rt, &EDGES_128);
}
