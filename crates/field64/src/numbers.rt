//! Sums, products and rests of numbers modulo p.

ghost use Rattle.std.specs.Prelude.{◌≡◌, ◌+◌, ◌-◌, ◌*◌, ◌%◌, ◌<◌};
ghost use Rattle.field64.specs.Modulus.{modulus};

/// The modulus, 2^64 - 2^32 + 1.
pub const MODULUS: u64 = 18_446_744_069_414_584_321;

const TWO_32: u128 = 1 << 32;

const TWO_64: u128 = 1 << 64;

/// The sum modulo p of numbers below p; no step passes its type.
#[inline]
pub fn add_numbers(a: u64, b: u64) -> u64
    requires first { a < modulus }
    requires second { b < modulus }
    ensures { result ≡ (a + b) % modulus }
{
    let room = MODULUS - b;
    if a >= room { a - room } else { a + b }
}

/// The difference modulo p of numbers below p.
#[inline]
pub fn subtract_numbers(a: u64, b: u64) -> u64
    requires first { a < modulus }
    requires second { b < modulus }
    ensures { result ≡ (a + (modulus - b)) % modulus }
{
    if a >= b { a - b } else { a + (MODULUS - b) }
}

/// The number that added to this one is 0 modulo p.
#[inline]
pub fn negate_number(a: u64) -> u64
    requires { a < modulus }
    ensures { result ≡ (modulus - a) % modulus }
{
    if a == 0 { 0 } else { MODULUS - a }
}

/// The product modulo p by one product of 64 bits.
#[inline]
pub fn multiply_numbers(a: u64, b: u64) -> u64
    ensures { result ≡ (a * b) % modulus }
{
    reduce(u128::from(a) * u128::from(b))
}

/// The rest modulo p by the form of p: 2^64 is 2^32 - 1 there, and 2^96 is -1.
#[inline]
fn reduce(whole: u128) -> u64
    ensures { result ≡ whole % modulus }
{
    let low = whole % TWO_64;
    let high = whole / TWO_64;
    let middle = high % TWO_32;
    let top = high / TWO_32;
    subtract_twice(low + middle * (TWO_32 - 1) + (u128::from(MODULUS) - top))
}

/// The rest modulo p of a number below 4 p.
#[inline]
fn subtract_twice(sum: u128) -> u64
    requires { sum < 4 * modulus }
    ensures { result ≡ sum % modulus }
{
    let mut rest = sum;
    if rest >= 2 * u128::from(MODULUS) {
        rest -= 2 * u128::from(MODULUS);
    }
    if rest >= u128::from(MODULUS) {
        rest -= u128::from(MODULUS);
    }
    rest as u64
}
