//! The proof of an input.

ghost use Rattle.std.specs.Prelude.{◌≡◌, length, IfOk};
ghost use Rattle.flp_proof.specs.Proof.{proof_of, proof_len};

use crate::gadgets::{gadget_values, push_all};
use crate::sizes::log_above;
use crate::wires::tables_of;
use flp_circuits::Circuit;
use poly_ntt::inverse;
use std::alloc::{AllocError, Global};

/// The proof for the input `x`, `proof_len` elements: the wire seeds, one for each wire, then the gadget polynomial's
/// coefficients. The joint randomness belongs to the proof's interface in the draft, and these circuits' gadgets don't
/// depend on it.
pub fn prove<C: Circuit>(
    alloc: Global,
    c: &C,
    x: &[C::F],
    seeds: &[C::F],
    joint: &[C::F],
) -> Result<Vec<C::F>, AllocError>
    requires input { length x.now ≡ (C.shape c.now).input_len }
    requires seeds { length seeds.now ≡ (C.shape c.now).arity }
    requires joint { length joint.now ≡ (C.shape c.now).joint_len }
    ensures proof { IfOk result (λ p. p.items
        ≡ proof_of C.F.ring C.F.half_of C.F.root_of (C.shape c.now) x.now seeds.now) }
    ensures size { IfOk result (λ p. length p.items ≡ proof_len (C.shape c.now)) }
{
    let log = log_above(c.calls());
    let tables = tables_of(alloc, c, x, seeds, log)?;
    let mut whole = gadget_values(alloc, c, &tables, log + 1)?;
    inverse(&mut whole);
    let mut proof = Vec::new(alloc);
    push_all(&mut proof, seeds)?;
    push_all(&mut proof, &whole[..whole.len() - 1])?;
    Ok(proof)
}
