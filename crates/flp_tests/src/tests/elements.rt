ghost use Rattle.std.specs.Prelude.{◌≡◌, length, IfOk};

use field_laws::Field;
use flp_circuits::Histogram;
use std::alloc::{AllocError, Global};
use std::process::Abort;

/// The elements of these numbers.
fn elements<F: Field>(alloc: Global, numbers: &[u128]) -> Result<Vec<F>, AllocError> {
    let mut made = Vec::new(alloc);
    for number in numbers {
        made.push(F::of(*number))?;
    }
    Ok(made)
}

/// A vector that has to have this size.
pub(super) fn sized<F: Field>(rt: &impl Abort, xs: Vec<F>, size: usize) -> Vec<F>
    ensures { length result.items ≡ size }
{
    assert_eq!(rt; xs.len(), size);
    xs
}

/// The elements of these numbers, of which there have to be so many.
pub(super) fn sized_elements<F: Field>(
    rt: &impl Abort,
    alloc: Global,
    numbers: &[u128],
    size: usize,
) -> Result<Vec<F>, AllocError>
    ensures { IfOk result (λ v. length v.items ≡ size) }
{
    let made = elements(alloc, numbers)?;
    Ok(sized(rt, made, size))
}

/// Ends the test unless the number is the wanted one.
pub(super) fn check_number(rt: &impl Abort, number: u128, want: u128) {
    assert_eq!(rt; number, want);
}

/// Ends the test unless the answer is the wanted one.
pub(super) fn check_flag(rt: &impl Abort, flag: bool, want: bool) {
    assert_eq!(rt; flag, want);
}

/// Ends the test unless the elements have the wanted numbers.
pub(super) fn check_elements<F: Field>(rt: &impl Abort, got: &[F], want: &[u128]) {
    assert_eq!(rt; got.len(), want.len());
    for (element, want) in got.iter().zip(want) {
        check_number(rt, element.value(), *want);
    }
}

/// Elements by a plain linear congruence, for numbers that no one chose.
pub(super) fn drawn<F: Field>(
    alloc: Global,
    seed: u64,
    count: usize,
) -> Result<Vec<F>, AllocError> {
    let mut state = seed;
    let mut made = Vec::new(alloc);
    for _i in 0..count {
        state = state
            .wrapping_mul(6_364_136_223_846_793_005)
            .wrapping_add(1_442_695_040_888_963_407);
        made.push(F::of(u128::from(state)))?;
    }
    Ok(made)
}

/// The circuit of three buckets.
pub(super) fn between_10_and_20<F: Field>(alloc: Global) -> Result<Histogram<F>, AllocError> {
    let mut bounds = Vec::new(alloc);
    bounds.push(10)?;
    bounds.push(20)?;
    Ok(Histogram::new(bounds))
}
