//! The transform and its inverse.

ghost use Rattle.std.specs.Prelude.{◌≡◌, ◌<◌, ◌^◌, ℕ, length};
ghost use Rattle.field_laws.specs.Polynomial.{scale};
ghost use Rattle.field_laws.specs.Interpolation.{HasLog, Interpolates};
ghost use Rattle.poly_ntt.specs.Transform.{values_at_powers, ReversesRest};

use crate::butterflies::halve;
use crate::digits::reorder;
use field_laws::{Field, log_of};

/// The values of a polynomial of 2^log coefficients, up to 4,096 of them, at the powers of the root of that order, in
/// the coefficients' place. No memory is taken.
pub fn ntt<F: Field>(p: &mut [F])
    requires { HasLog (length p.old) 12 }
    ensures { (log : ℕ) → length p.old ≡ 2 ^ log → p.new ≡ values_at_powers F.ring (F.root_of log) (2 ^ log) p.old }
{
    let log = log_of(p.len());
    halve(p, log, F::root(log));
    reorder(p, log);
}

fn scale_all<F: Field>(p: &mut [F], c: F)
    ensures { p.new ≡ scale F.ring c p.old }
{
    for i in 0..p.len() {
        p[i] = c.mul(p[i]);
    }
}

/// Reverses all entries but the first.
fn reverse_rest<F: Field>(p: &mut [F])
    requires { 0 < length p.old }
    ensures { ReversesRest F.ring.nought (length p.old) p.old p.new }
{
    p[1..].reverse();
}

/// The coefficients of the polynomial with these values at the powers of the root of their number, which is a power of
/// two up to 4,096, in the values' place. No memory is taken.
pub fn inverse<F: Field>(values: &mut [F])
    requires { HasLog (length values.old) 12 }
    ensures { (log : ℕ) → length values.old ≡ 2 ^ log → Interpolates F.ring (F.root_of log) values.old values.new }
{
    let log = log_of(values.len());
    ntt(values);
    scale_all(values, F::half().pow(u128::from(log)));
    reverse_rest(values);
}
