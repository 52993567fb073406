//! What holds of a circuit's measurement function.
ghost use Rattle.std.specs.Prelude.{◌≡◌, ◌≢◌, ℕ, ◌+◌, ◌^◌, ◌≤◌, List, [], ◌∷◌, Some, true};
ghost use Rattle.field_laws.specs.Ring.{power};
ghost use Rattle.flp_proof.specs.Proof.{wire_log};
ghost use Rattle.vdaf_api.specs.declared.answer.Answer.{Answer};
ghost use Rattle.vdaf_api.specs.declared.shares.TheConstants.{MOST_LEADER};
ghost use Rattle.vdaf_api.specs.Functions.{Parts};
ghost use Rattle.vdaf_api.specs.Promises.{FunctionLaws};
ghost use Rattle.vdaf_api.specs.Verdict.{numbers_of, opened, verdict};
ghost use Rattle.prio3_share.specs.declared.usage.Usage.TheVariants.{QueryPoint};
ghost use Rattle.prio3_share.specs.Texts.{drawn_for};
ghost use Rattle.prio3_share.specs.Sharing.{encoding, shard};
ghost use Rattle.prio3_share.specs.Preparing.{is_fair, proof_bytes, x_bytes};
ghost use Rattle.prio3_share.specs.Functions.{functions_of};
ghost use Rattle.prio3_prep.specs.Decided.{AcceptedAreDecided};

use flp_circuits::Circuit;
use prio3_share::Based;

/// A law: the verdict on an honest report of two shares is ok, and its content is the truncated encoding of the
/// measurement, wherever the drawing of the query point has a value that is no P-th root of one.
pub fn honest_reports_are_accepted<C: Circuit>(c: &C, kind: u8)
    ensures honest { (answer : List ℕ → Answer) (verify id seed ms : List ℕ) (p : Parts)
        → shard ⟦<C::F as Based>⟧.base (C.shape c.now) kind id ms seed ≡ Some p
        → is_fair ⟦<C::F as Based>⟧.base (C.shape c.now) kind verify id ≡ true
        → numbers_of (functions_of ⟦<C::F as Based>⟧.base (C.shape c.now) kind answer)
        (verdict (functions_of ⟦<C::F as Based>⟧.base (C.shape c.now) kind answer) (opened verify id p))
        ≡ encoding ⟦<C::F as Based>⟧.base (C.shape c.now) kind ms }
    ensures fair { (verify id : List ℕ) (t : C.F)
        → drawn_for ⟦<C::F as Based>⟧.base kind verify QueryPoint id 1 ≡ Some (t ∷ [])
        → power C.F.ring t (2 ^ wire_log (C.shape c.now).calls) ≢ C.F.ring.unit
        → is_fair ⟦<C::F as Based>⟧.base (C.shape c.now) kind verify id ≡ true }
{}

/// A law: any two shares whose report has the verdict ok are halves of an input and a proof that `decide` accepts, on
/// the query of the whole; both sides have one joint randomness, and the out shares are those of the halves. So a
/// report whose halves add to an input or a proof that isn't accepted has the verdict failed; and where the whole proof
/// is the input's own, the input keeps the circuit's rules.
pub fn accepted_reports_are_decided<C: Circuit>(c: &C, kind: u8)
    ensures { (answer : List ℕ → Answer) → AcceptedAreDecided ⟦<C::F as Based>⟧.base (C.shape c.now) kind answer }
{}

/// A law: a circuit's measurement function keeps the laws of measurement functions, whatever its answers are, where an
/// input share of the leader has at most `MOST_LEADER` bytes.
pub fn circuits_measure<C: Circuit>(c: &C, kind: u8)
    ensures { (answer : List ℕ → Answer)
        → x_bytes ⟦<C::F as Based>⟧.base (C.shape c.now) kind
        + proof_bytes ⟦<C::F as Based>⟧.base (C.shape c.now) kind + 16 ≤ MOST_LEADER
        → FunctionLaws (functions_of ⟦<C::F as Based>⟧.base (C.shape c.now) kind answer) }
{}
