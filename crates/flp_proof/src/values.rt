//! Values at the powers of a root.

ghost use Rattle.std.specs.Prelude.{◌≡◌, ◌*◌, ◌≤◌, ◌^◌, length, IfOk, slice_index_or};
ghost use Rattle.poly_ntt.specs.Transform.{values_at_powers};

use field_laws::Field;
use poly_ntt::ntt;
use std::alloc::{AllocError, Global};

/// Entry `i`, and zero where there is none.
pub fn entry_at<F: Field>(xs: &[F], i: usize) -> F
    ensures { result ≡ slice_index_or xs.now i F.ring.nought }
{
    if i < xs.len() { xs[i] } else { F::zero() }
}

/// The values of a polynomial of at most 2 n coefficients at the powers of the root of order n = 2^log: there x^n is 1,
/// so that the coefficients are folded to n of them first.
pub fn values_at_roots<F: Field>(alloc: Global, p: &[F], log: u8) -> Result<Vec<F>, AllocError>
    requires few { log ≤ 12 }
    requires short { length p.now ≤ 2 * 2 ^ log }
    ensures { IfOk result (λ v. v.items ≡ values_at_powers F.ring (F.root_of log) (2 ^ log) p.now) }
{
    let order: usize = 1 << log;
    let mut values = Vec::new(alloc);
    for i in 0..order {
        values.push(entry_at(p, i).add(entry_at(p, order + i)))?;
    }
    ntt(&mut values);
    Ok(values)
}
