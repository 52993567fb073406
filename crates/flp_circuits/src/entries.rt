//! Lists of one number, vectors of bits, and their weighted sums.

ghost use Rattle.std.specs.Prelude.{◌≡◌, ℕ, ◌+◌, ◌≤◌, ◌^◌, ◌<◌, length, IfOk, nat_eq};
ghost use Rattle.field_laws.specs.Ring.{power};
ghost use Rattle.flp_circuits.specs.Shape.{quadratic_at};
ghost use Rattle.flp_circuits.specs.Kinds.{bit, bit_form, binary, one_hot, only, weighted, total};

use field_laws::Field;
use std::alloc::{AllocError, Global};

/// The number of a list of one.
pub fn only(m: &[u64]) -> Option<u64>
    ensures { result ≡ only m.now }
{
    if m.len() == 1 { Some(m[0]) } else { None }
}

/// One for true, zero for false.
pub fn bit_of<F: Field>(set: bool) -> F
    ensures { result ≡ bit F.ring set }
{
    if set { F::one() } else { F::zero() }
}

/// The lowest `size` binary digits of a number, the lowest first.
pub fn binary_digits<F: Field>(alloc: Global, size: u8, m: u64) -> Result<Vec<F>, AllocError>
    ensures { IfOk result (λ x. x.items ≡ binary F.ring size m) }
{
    let mut digits = Vec::new(alloc);
    let mut rest = m;
    for _i in 0..size {
        digits.push(bit_of(rest % 2 == 1))?;
        rest /= 2;
    }
    Ok(digits)
}

/// One at `place`, and zero at the other of `size` places.
pub fn one_hot_at<F: Field>(alloc: Global, size: usize, place: usize) -> Result<Vec<F>, AllocError>
    ensures { IfOk result (λ x. x.items ≡ one_hot F.ring size place) }
{
    let mut entries = Vec::new(alloc);
    for i in 0..size {
        entries.push(bit_of(i == place))?;
    }
    Ok(entries)
}

/// The sum of the entries, entry i times `first` times `ratio` to the power i.
pub fn weigh<F: Field>(first: F, ratio: F, xs: &[F]) -> F
    ensures { result ≡ weighted F.ring (λ i. F.ring.mul first (power F.ring ratio i)) (length xs.now) xs.now }
{
    let mut sum = F::zero();
    let mut weight = first;
    for x in xs {
        sum = sum.add(weight.mul(*x));
        weight = weight.mul(ratio);
    }
    sum
}

/// The sum of the entries.
pub fn sum_all<F: Field>(xs: &[F]) -> F
    ensures { result ≡ total F.ring (length xs.now) xs.now }
{
    let mut sum = F::zero();
    for x in xs {
        sum = sum.add(*x);
    }
    sum
}

/// a a - a, which is zero at zero and at one alone.
pub fn bit_test<F: Field>(a: F) -> F
    ensures { (b : F) → result ≡ quadratic_at F.ring (bit_form F.ring) a b }
{
    a.mul(a).sub(a)
}
