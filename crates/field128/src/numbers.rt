//! Sums and rests of numbers modulo p.

ghost use Rattle.std.specs.Prelude.{◌≡◌, ◌+◌, ◌-◌, ◌%◌, ◌<◌};
ghost use Rattle.field128.specs.Modulus.{modulus};

/// The modulus, 2^128 - 7 * 2^66 + 1.
pub const MODULUS: u128 = 340_282_366_920_938_462_946_865_773_367_900_766_209;

/// The sum modulo p of numbers below p; no step passes its type.
#[inline]
pub fn add_numbers(a: u128, b: u128) -> u128
    requires first { a < modulus }
    requires second { b < modulus }
    ensures { result ≡ (a + b) % modulus }
{
    let room = MODULUS - b;
    if a >= room { a - room } else { a + b }
}

/// The difference modulo p of numbers below p.
#[inline]
pub fn subtract_numbers(a: u128, b: u128) -> u128
    requires first { a < modulus }
    requires second { b < modulus }
    ensures { result ≡ (a + (modulus - b)) % modulus }
{
    if a >= b { a - b } else { a + (MODULUS - b) }
}

/// The number that added to this one is 0 modulo p.
#[inline]
pub fn negate_number(a: u128) -> u128
    requires { a < modulus }
    ensures { result ≡ (modulus - a) % modulus }
{
    if a == 0 { 0 } else { MODULUS - a }
}

/// The rest modulo p, since 2 p is above every number of 128 bits.
#[inline]
pub fn reduce(a: u128) -> u128
    ensures { result ≡ a % modulus }
{
    if a >= MODULUS { a - MODULUS } else { a }
}
