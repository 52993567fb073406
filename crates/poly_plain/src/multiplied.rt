//! Products of polynomials.

ghost use Rattle.std.specs.Prelude.{◌≡◌, ◌+◌, ◌≤◌, ◌<◌, length, IfOk};
ghost use Rattle.field_laws.specs.Polynomial.{eval, add_polynomials, scale, product};

use field_laws::Field;
use std::alloc::{AllocError, Global};

/// Adds `c` times `q` in place.
fn add_multiple<F: Field>(to: &mut [F], c: F, q: &[F])
    requires { length q.now ≤ length to.old }
    ensures { to.new ≡ add_polynomials F.ring (scale F.ring c q.now) to.old }
{
    for j in 0..q.len() {
        to[j] = c.mul(q[j]).add(to[j]);
    }
}

/// The product of two polynomials that aren't empty: its value at each point is the product of theirs.
pub fn mul<F: Field>(alloc: Global, a: &[F], b: &[F]) -> Result<Vec<F>, AllocError>
    requires first { 0 < length a.now }
    requires second { 0 < length b.now }
    ensures product { IfOk result (λ p. p.items ≡ product F.ring a.now b.now) }
    ensures size { IfOk result (λ p. length p.items + 1 ≡ length a.now + length b.now) }
    ensures value { IfOk result (λ p. (x : F) → eval F.ring p.items x
        ≡ F.ring.mul (eval F.ring a.now x) (eval F.ring b.now x)) }
{
    let mut made = Vec::new(alloc);
    for _j in 1..b.len() {
        made.push(F::zero())?;
    }
    for coefficient in a.iter().rev() {
        made.insert(0, F::zero())?;
        add_multiple(&mut made, *coefficient, b);
    }
    Ok(made)
}
