//! The plain program of a product.

ghost use Rattle.std.specs.Prelude.{◌≡◌};

use crate::element::Field;

/// The product by doubling and adding, the plain program of `mul`: it takes nothing of the
/// field but its sums, and its contract is that of `mul`.
pub fn multiply_by_doubling<F: Field>(a: F, b: F) -> F
    ensures { result ≡ F.ring.mul a b }
{
    let mut product = F::zero();
    let mut addend = a;
    let mut rest = b.value();
    while rest > 0 {
        if rest % 2 == 1 {
            product = product.add(addend);
        }
        addend = addend.add(addend);
        rest /= 2;
    }
    product
}
