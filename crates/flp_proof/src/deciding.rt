//! The decision on a verifier.

ghost use Rattle.std.specs.Prelude.{◌≡◌, ◌+◌, ◌↔◌, length, IsTrue};
ghost use Rattle.flp_proof.specs.Proof.{Accepts};

use field_laws::Field;
use flp_circuits::Circuit;

/// Whether a verifier, the sum of the verifier shares, is accepted: its first element is zero, and the gadget of the
/// wires that follow is its last.
pub fn decide<C: Circuit>(c: &C, v: &[C::F]) -> bool
    requires { length v.now ≡ (C.shape c.now).arity + 2 }
    ensures { IsTrue result ↔ Accepts C.F.ring (C.shape c.now) v.now }
{
    let arity = c.arity();
    let value = c.gadget(&v[1..arity + 1]);
    v[0].is_same(C::F::zero()) && value.is_same(v[arity + 1])
}
