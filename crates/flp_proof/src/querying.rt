//! The query of a share.

ghost use Rattle.std.specs.Prelude.{◌≡◌, ◌+◌, ◌^◌, ◌↔◌, length, IfOk};
ghost use Rattle.field_laws.specs.Ring.{power};
ghost use Rattle.flp_proof.specs.Proof.{wire_log, proof_len, query_of};

use crate::gadgets::push_values;
use crate::sizes::log_above;
use crate::values::values_at_roots;
use crate::wires::wires_of;
use field_laws::Field;
use flp_circuits::Circuit;
use poly_plain::eval;
use std::alloc::{AllocError, Global};
use thiserror::Error;

/// Why a query has no value.
#[derive(Clone, Copy, Debug, PartialEq, Eq, Error)]
pub enum QueryFault {
    /// The point is a P-th root of one.
    #[error("the query point is a root of one")]
    Root,
    /// There was no memory for the verifier share.
    #[error("no memory")]
    NoMemory,
}

/// The verifier share at `t`.
fn verifier_share<C: Circuit>(
    alloc: Global,
    c: &C,
    one: C::F,
    x: &[C::F],
    proof: &[C::F],
    joint: &[C::F],
    t: C::F,
) -> Result<Vec<C::F>, AllocError>
    requires input { length x.now ≡ (C.shape c.now).input_len }
    requires proof { length proof.now ≡ proof_len (C.shape c.now) }
    requires joint { length joint.now ≡ (C.shape c.now).joint_len }
    ensures share { IfOk result (λ v. v.items
        ≡ query_of C.F.ring C.F.half_of C.F.root_of (C.shape c.now) one x.now proof.now joint.now t) }
    ensures size { IfOk result (λ v. length v.items ≡ (C.shape c.now).arity + 2) }
{
    let log = log_above(c.calls());
    let wires = wires_of(alloc, c, x, proof, log)?;
    let g = &proof[c.arity()..];
    let values = values_at_roots(alloc, g, log)?;
    let mut share = Vec::new(alloc);
    share.push(c.validity(one, x, joint, &values[1..c.calls() + 1]))?;
    push_values(&mut share, &wires, t)?;
    share.push(eval(g, t))?;
    Ok(share)
}

/// The verifier share of a share of an input and of its proof at the point `t`: the validity value, the wire
/// polynomials at `t`, and the gadget polynomial at `t`. `one` is this share's part of 1: 1 for a whole input, and
/// `half` for each of two shares. `Root` exactly where t^P is 1.
pub fn query<C: Circuit>(
    alloc: Global,
    c: &C,
    one: C::F,
    x: &[C::F],
    proof: &[C::F],
    joint: &[C::F],
    t: C::F,
) -> Result<Vec<C::F>, QueryFault>
    requires input { length x.now ≡ (C.shape c.now).input_len }
    requires proof { length proof.now ≡ proof_len (C.shape c.now) }
    requires joint { length joint.now ≡ (C.shape c.now).joint_len }
    ensures share { IfOk result (λ v. v.items
        ≡ query_of C.F.ring C.F.half_of C.F.root_of (C.shape c.now) one x.now proof.now joint.now t) }
    ensures size { IfOk result (λ v. length v.items ≡ (C.shape c.now).arity + 2) }
    ensures root { (result ≡ Err QueryFault.Root)
        ↔ (power C.F.ring t (2 ^ wire_log (C.shape c.now).calls) ≡ C.F.ring.unit) }
{
    let log = log_above(c.calls());
    let is_root = t.pow(1 << log).is_same(C::F::one());
    if is_root {
        return Err(QueryFault::Root);
    }
    verifier_share(alloc, c, one, x, proof, joint, t).map_err(|_| QueryFault::NoMemory)
}
