ghost use Rattle.std.specs.Prelude.{◌≤◌};

use super::elements::{check_elements, check_flag, check_number, drawn, sized, sized_elements};
use crate::Wide;
use field_laws::Field;
use field64::Field64;
use field128::Field128;
use flp_circuits::Circuit;
use flp_proof::{decide, prove, query};
use poly_ntt::{inverse, ntt};
use poly_plain::interpolate;
use std::alloc::Global;
use std::process::Abort;
use std::test::Fail;

/// The values at the powers of the root, and back.
fn check_transform<F: Field>(
    rt: &impl Abort,
    alloc: Global,
    log: u8,
    coefficients: &[u128],
    values: &[u128],
) -> Result<(), Fail>
    requires { log ≤ 12 }
{
    let mut p: Vec<F> = sized_elements(rt, alloc, coefficients, 1 << log)?;
    ntt(&mut p);
    check_elements(rt, &p, values);
    let mut back = sized(rt, p, 1 << log);
    inverse(&mut back);
    check_elements(rt, &back, coefficients);
    Ok(())
}

/// Both programs of interpolation give one polynomial.
fn check_interpolations<F: Field>(rt: &impl Abort, alloc: Global, log: u8) -> Result<(), Fail>
    requires { log ≤ 12 }
{
    let mut values: Vec<F> = sized(rt, drawn(alloc, u64::from(log), 1 << log)?, 1 << log);
    let plain = interpolate(alloc, &values)?;
    inverse(&mut values);
    for (a, b) in plain.iter().zip(&values) {
        check_number(rt, a.value(), b.value());
    }
    Ok(())
}

#[test]
fn two_coefficients(rt: HostRuntime) -> Result<(), Fail> {
    let alloc = rt.alloc();
    check_transform::<Field64>(&rt, alloc, 1, &[2, 1], &[3, 1])?;
    check_transform::<Field128>(&rt, alloc, 1, &[2, 1], &[3, 1])?;
    check_transform::<Field128>(&rt, alloc, 0, &[9], &[9])
}

#[test]
fn interpolations_agree(rt: HostRuntime) -> Result<(), Fail> {
    let alloc = rt.alloc();
    check_interpolations::<Field64>(&rt, alloc, 0)?;
    check_interpolations::<Field64>(&rt, alloc, 5)?;
    check_interpolations::<Field64>(&rt, alloc, 10)?;
    check_interpolations::<Field128>(&rt, alloc, 3)?;
    check_interpolations::<Field128>(&rt, alloc, 10)
}

/// A proof of so many calls on zeros, with seeds and a point that no one chose, is accepted.
fn check_wide<F: Field>(
    rt: &impl Abort,
    alloc: Global,
    c: &Wide<F>,
    seed: u64,
) -> Result<(), Fail> {
    let mut zeros: Vec<F> = Vec::new(alloc);
    for _i in 0..c.calls() {
        zeros.push(F::zero())?;
    }
    let x = sized(rt, zeros, c.calls());
    let none = sized(rt, Vec::new(alloc), 0);
    let seeds: Vec<F> = sized(rt, drawn(alloc, seed, 1)?, 1);
    let proof = prove(alloc, c, &x, &seeds, &none)?;
    let verifier = query(
        alloc,
        c,
        F::one(),
        &x,
        &proof,
        &none,
        F::of(u128::from(seed) + 2),
    )?;
    check_flag(rt, decide(c, &verifier), true);
    Ok(())
}

#[test]
fn forty_wide_proofs(rt: HostRuntime) -> Result<(), Fail> {
    let alloc = rt.alloc();
    let wide = Wide::<Field128>::new(2047);
    for seed in 0..40 {
        check_wide(&rt, alloc, &wide, seed)?;
    }
    let narrow = Wide::<Field64>::new(1);
    check_wide(&rt, alloc, &narrow, 40)
}
