//! Laws of proofs, for the layers above.

ghost use Rattle.std.specs.Prelude.{◌≡◌, ◌+◌, ◌^◌, ◌<◌, ◌≤◌, ℕ, List, length, slice_index_or};
ghost use Rattle.field_laws.specs.Polynomial.{eval, add_polynomials};
ghost use Rattle.field_laws.specs.Interpolation.{Interpolates};
ghost use Rattle.field_laws.specs.Points.{AreDifferent};
ghost use Rattle.flp_circuits.specs.Shape.{gadget, IsValid, IsInvalid};
ghost use Rattle.flp_proof.specs.Proof.{wire_log, wire_values, wire, wires_at, gadget_polynomial};
ghost use Rattle.flp_proof.specs.Shares.{gadget_degree, AreShares, AreOwnShares, HasRoot, defect, AcceptsAt, AcceptsAtEach};

use flp_circuits::Circuit;

/// A law: the proof of a valid input is accepted on the sum of the queries of its two shares with `half`, however input
/// and proof are split, at every point. At a root of one alone `query` answers no share.
pub fn valid_proofs_are_accepted<C: Circuit>(c: &C)
    ensures { (x y p q seeds joint : List C.F) (t : C.F)
        → AreOwnShares C.F.ring C.F.half_of C.F.root_of (C.shape c.now) x y p q seeds joint
        → IsValid C.F.ring (C.shape c.now) (add_polynomials C.F.ring x y) joint
        → AcceptsAt C.F.ring C.F.half_of C.F.root_of (C.shape c.now) x y p q joint t }
{}

/// A law, the other way round: where the sum of the queries of two shares is accepted, and their proofs add to the
/// input's own proof, the input is valid at this joint randomness. It says nothing of proofs that are made otherwise.
pub fn accepted_inputs_are_valid<C: Circuit>(c: &C)
    ensures { (x y p q seeds joint : List C.F) (t : C.F)
        → AreOwnShares C.F.ring C.F.half_of C.F.root_of (C.shape c.now) x y p q seeds joint
        → AcceptsAt C.F.ring C.F.half_of C.F.root_of (C.shape c.now) x y p q joint t
        → IsValid C.F.ring (C.shape c.now) (add_polynomials C.F.ring x y) joint }
{}

/// A law: P is the least power of two that is above the number of calls; a wire polynomial has degree below P and its
/// values at the powers of the root of order P, as no other has; and the gadget polynomial is the gadget of the wire
/// polynomials at every point, in 2 (P - 1) + 1 coefficients.
pub fn proofs_meet_their_equations<C: Circuit>(c: &C)
    ensures is_above_the_calls { (C.shape c.now).calls < 2 ^ wire_log (C.shape c.now).calls }
    ensures is_the_least { (log : ℕ) → (C.shape c.now).calls < 2 ^ log → wire_log (C.shape c.now).calls ≤ log }
    ensures wires_interpolate { (x seeds : List C.F) (j : ℕ)
        → Interpolates C.F.ring (C.F.root_of (wire_log (C.shape c.now).calls))
        (wire_values C.F.ring C.F.half_of C.F.root_of (C.shape c.now) x (slice_index_or seeds j C.F.ring.nought) j)
        (wire C.F.ring C.F.half_of C.F.root_of (C.shape c.now) x seeds j) }
    ensures is_the_gadget_of_the_wires { (x seeds : List C.F) (t : C.F)
        → eval C.F.ring (gadget_polynomial C.F.ring C.F.half_of C.F.root_of (C.shape c.now) x seeds) t
        ≡ gadget C.F.ring (C.shape c.now) (wires_at C.F.ring C.F.half_of C.F.root_of (C.shape c.now) x seeds t) }
    ensures has_its_size { (x seeds : List C.F)
        → length (gadget_polynomial C.F.ring C.F.half_of C.F.root_of (C.shape c.now) x seeds)
        ≡ gadget_degree (C.shape c.now) + 1 }
{}

/// A law: where an input is invalid at this joint randomness, then whatever the proof is and however both are split into
/// two shares, each point at which the sum of the two queries is accepted is a root of what the proof is off by: a
/// polynomial of degree at most 2 (P - 1) that isn't zero there and doesn't depend on the point. So there are at most
/// 2 (P - 1) such points. It counts points, and says nothing of chances.
pub fn invalid_inputs_are_refused<C: Circuit>(c: &C)
    ensures accepted_points_are_roots { (x y p q joint : List C.F) (t : C.F) → AreShares (C.shape c.now) x y p q joint
        → IsInvalid C.F.ring (C.shape c.now) (add_polynomials C.F.ring x y) joint
        → AcceptsAt C.F.ring C.F.half_of C.F.root_of (C.shape c.now) x y p q joint t
        → HasRoot C.F.ring (gadget_degree (C.shape c.now)) (defect C.F.ring C.F.half_of C.F.root_of (C.shape c.now)
        (add_polynomials C.F.ring x y) (add_polynomials C.F.ring p q)) t }
    ensures accepted_points_are_few { (x y p q joint ts : List C.F) → AreShares (C.shape c.now) x y p q joint
        → IsInvalid C.F.ring (C.shape c.now) (add_polynomials C.F.ring x y) joint → AreDifferent C.F.ring ts
        → AcceptsAtEach C.F.ring C.F.half_of C.F.root_of (C.shape c.now) x y p q joint ts
        → length ts ≤ gadget_degree (C.shape c.now) }
{}
