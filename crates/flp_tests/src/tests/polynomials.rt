ghost use Rattle.std.specs.Prelude.{◌≤◌};

use super::elements::{check_elements, check_number, sized_elements};
use field_laws::Field;
use field64::Field64;
use field128::Field128;
use poly_plain::{eval, interpolate, interpolation_is_unique, mul};
use std::alloc::Global;
use std::process::Abort;
use std::test::Fail;

/// The polynomial has these coefficients, and goes through the values at the powers of the root.
fn check_interpolation<F: Field>(
    rt: &impl Abort,
    alloc: Global,
    log: u8,
    values: &[u128],
    coefficients: &[u128],
) -> Result<(), Fail>
    requires { log ≤ 12 }
{
    let values: Vec<F> = sized_elements(rt, alloc, values, 1 << log)?;
    let polynomial = interpolate(alloc, &values)?;
    check_elements(rt, &polynomial, coefficients);
    let root = F::root(log);
    let mut point = F::one();
    for value in &values {
        check_number(rt, eval(&polynomial, point).value(), value.value());
        point = point.mul(root);
    }
    interpolation_is_unique::<F>();
    Ok(())
}

/// The product of a polynomial of two coefficients and another one.
fn check_product<F: Field>(
    rt: &impl Abort,
    alloc: Global,
    a: &[u128],
    b: &[u128],
    product: &[u128],
    at_two: u128,
) -> Result<(), Fail> {
    let a: Vec<F> = sized_elements(rt, alloc, a, 2)?;
    let b: Vec<F> = sized_elements(rt, alloc, b, 2)?;
    let made = mul(alloc, &a, &b)?;
    check_elements(rt, &made, product);
    check_number(rt, eval(&made, F::of(2)).value(), at_two);
    Ok(())
}

#[test]
fn two_values(rt: HostRuntime) -> Result<(), Fail> {
    let alloc = rt.alloc();
    check_interpolation::<Field64>(&rt, alloc, 1, &[3, 1], &[2, 1])?;
    check_interpolation::<Field64>(&rt, alloc, 1, &[5, 1], &[3, 2])?;
    check_product::<Field64>(&rt, alloc, &[2, 1], &[3, 2], &[6, 7, 2], 28)
}

const EIGHT_VALUES: [u128; 8] = [3, 1, 4, 1, 5, 9, 2, 6];

const THROUGH_EIGHT_64: [u128; 8] = [
    2305843008676823044,
    4611614549087355136,
    13834952498944671745,
    4611755698886279328,
    6917529026030469120,
    4611616748131581696,
    13835163605177204737,
    4611757073309368160,
];

const THROUGH_EIGHT_128: [u128; 8] = [
    42535295865117307868358221670987595780,
    332893938235777573768100900810057640434,
    16306071051943751439859641199175680189,
    270067343270767731198788023608548987643,
    127605887595351923605074665012962787328,
    199271040214888455905343947507361082464,
    153835112408525480033573245484774702916,
    218614779041381627968364448177734588085,
];

#[test]
fn eight_values(rt: HostRuntime) -> Result<(), Fail> {
    let alloc = rt.alloc();
    check_interpolation::<Field64>(&rt, alloc, 3, &EIGHT_VALUES, &THROUGH_EIGHT_64)?;
    check_interpolation::<Field128>(&rt, alloc, 3, &EIGHT_VALUES, &THROUGH_EIGHT_128)?;
    check_interpolation::<Field128>(&rt, alloc, 0, &[7], &[7])?;
    check_product::<Field128>(&rt, alloc, &[2, 1], &[3, 2], &[6, 7, 2], 28)
}
