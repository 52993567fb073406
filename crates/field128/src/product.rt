//! The product of two numbers modulo p.

ghost use Rattle.std.specs.Prelude.{◌≡◌, ◌+◌, ◌*◌, ◌%◌, ◌≤◌, ◌^◌};
ghost use Rattle.field128.specs.Modulus.{modulus};

use crate::numbers::{add_numbers, reduce, subtract_numbers};

const TWO_64: u128 = 1 << 64;

/// A number of 256 bits in two halves.
#[derive(Clone, Copy)]
struct Wide {
    high: u128,
    low: u128,
}

/// The product modulo p by four products of 64 bits.
#[inline]
pub fn multiply_numbers(a: u128, b: u128) -> u128
    ensures { result ≡ (a * b) % modulus }
{
    fold(multiply_wide(a, b))
}

#[inline]
fn multiply_halves(a: u64, b: u64) -> u128
    ensures value { result ≡ a * b }
    ensures room { result ≤ 340282366920938463426481119284349108225 }
{
    u128::from(a) * u128::from(b)
}

#[inline]
fn multiply_wide(a: u128, b: u128) -> Wide
    ensures { result.high * 2 ^ 128 + result.low ≡ a * b }
{
    let a_low = (a % TWO_64) as u64;
    let a_high = (a / TWO_64) as u64;
    let b_low = (b % TWO_64) as u64;
    let b_high = (b / TWO_64) as u64;
    let first = multiply_halves(a_low, b_low);
    let second = multiply_halves(a_high, b_low) + first / TWO_64;
    let third = multiply_halves(a_low, b_high) + second % TWO_64;
    Wide {
        high: multiply_halves(a_high, b_high) + second / TWO_64 + third / TWO_64,
        low: third % TWO_64 * TWO_64 + first % TWO_64,
    }
}

/// The rest modulo p by the form of p: 2^128 is 28 * 2^64 - 1 there. The high half is folded
/// into the low one, and what of it is still above 128 bits once more.
#[inline]
fn fold(wide: Wide) -> u128
    ensures { result ≡ (wide.high * 2 ^ 128 + wide.low) % modulus }
{
    let top = wide.high / TWO_64;
    let middle = wide.high % TWO_64;
    let carried = 28 * middle + 784 * top;
    let over = carried / TWO_64;
    let kept = carried % TWO_64 * TWO_64;
    let sum = add_numbers(reduce(wide.low), reduce(kept));
    let sum = add_numbers(sum, over * 28 * TWO_64);
    let less = subtract_numbers(sum, reduce(wide.high));
    subtract_numbers(less, over + 28 * top)
}
