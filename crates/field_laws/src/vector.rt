//! Vectors of elements.

ghost use Rattle.std.specs.Prelude.{◌≡◌, length, map};
ghost use Rattle.field_laws.specs.Vector.{add_elements, add_each};

use crate::element::Field;

/// Adds each element of one vector to the element of the other at its place.
pub fn add_all<F: Field>(to: &mut [F], from: &[F])
    requires { length to.old ≡ length from.now }
    ensures elements { to.new ≡ add_elements F.ring to.old from.now }
    ensures numbers { map F.number to.new ≡ add_each F.MODULUS (map F.number to.old) (map F.number from.now) }
{
    for (i, added) in from.iter().enumerate() {
        to[i] = to[i].add(*added);
    }
}
