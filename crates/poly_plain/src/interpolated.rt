//! Interpolation by plain sums.

ghost use Rattle.std.specs.Prelude.{◌≡◌, ◌-◌, ◌^◌, ◌≤◌, ℕ, List, length, IfOk};
ghost use Rattle.field_laws.specs.Ring.{power};
ghost use Rattle.field_laws.specs.Interpolation.{HasLog, Interpolates, interpolation};

use crate::value::eval;
use field_laws::{Field, log_of};
use std::alloc::{AllocError, Global};

/// The coefficients for 2^log values: the transform by the inverse root, scaled.
fn coefficients<F: Field>(alloc: Global, values: &[F], log: u8) -> Result<Vec<F>, AllocError>
    requires few { log ≤ 12 }
    requires size { length values.now ≡ 2 ^ log }
    ensures { IfOk result (λ p. p.items
        ≡ interpolation F.ring F.half_of (power F.ring (F.root_of log) (2 ^ log - 1)) log values.now) }
{
    let inverse = F::root(log).pow((values.len() - 1) as u128);
    let scale = F::half().pow(u128::from(log));
    let mut point = F::one();
    let mut made = Vec::new(alloc);
    for _i in 0..values.len() {
        made.push(scale.mul(eval(values, point)))?;
        point = point.mul(inverse);
    }
    Ok(made)
}

/// The polynomial with as many coefficients as there are values, 2^log of them, up to 4,096, that has value k at power
/// k of the root of that order. No other has them: [`interpolation_is_unique`].
pub fn interpolate<F: Field>(alloc: Global, values: &[F]) -> Result<Vec<F>, AllocError>
    requires { HasLog (length values.now) 12 }
    ensures { (log : ℕ) → length values.now ≡ 2 ^ log
        → IfOk result (λ p. Interpolates F.ring (F.root_of log) values.now p.items) }
{
    let log = log_of(values.len());
    coefficients(alloc, values, log)
}

/// A law: there is one polynomial, and no second one, with given values at the powers of the root of their number.
pub fn interpolation_is_unique<F: Field>()
    ensures exists { (log : ℕ) (values : List F) → log ≤ 16 → length values ≡ 2 ^ log
        → Interpolates F.ring (F.root_of log) values
        (interpolation F.ring F.half_of (power F.ring (F.root_of log) (2 ^ log - 1)) log values) }
    ensures unique { (log : ℕ) (values p q : List F) → log ≤ 16 → length values ≡ 2 ^ log
        → Interpolates F.ring (F.root_of log) values p → Interpolates F.ring (F.root_of log) values q → p ≡ q }
{}
