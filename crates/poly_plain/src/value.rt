//! Values of polynomials.

ghost use Rattle.std.specs.Prelude.{◌≡◌};
ghost use Rattle.field_laws.specs.Polynomial.{eval, sum_of_terms};

use field_laws::Field;

/// The value of the polynomial `p` at `x`, by Horner's rule. That of no coefficients is zero.
pub fn eval<F: Field>(p: &[F], x: F) -> F
    ensures value { result ≡ eval F.ring p.now x }
    ensures terms { result ≡ sum_of_terms F.ring p.now x }
{
    let mut value = F::zero();
    for coefficient in p.iter().rev() {
        value = coefficient.add(x.mul(value));
    }
    value
}
