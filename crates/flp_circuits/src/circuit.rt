//! What a circuit is.

ghost use Rattle.std.specs.Prelude.{◌≡◌, ◌≤◌, ◌<◌, ◌↔◌, [], ◌∷◌, length, IfOk};
ghost use Rattle.flp_circuits.specs.Shape.{Shape, ShapeLaws, EncodeLaws, gadget};

use field_laws::Field;
use std::alloc::{AllocError, Global};
use thiserror::Error;

/// Why a measurement has no encoding.
#[derive(Clone, Copy, Debug, PartialEq, Eq, Error)]
pub enum EncodeFault {
    /// It isn't one of the circuit's kind.
    #[error("the value is not of the kind")]
    BadValue,
    /// There was no memory for it.
    #[error("no memory")]
    NoMemory,
}

/// A test of inputs by calls of one gadget, after the validity circuits of draft-irtf-cfrg-vdaf-03.
///
/// An input is a vector of `input_len` elements. Wire `wire` of call `call`, calls counting from 1 and wires from 0,
/// carries `input`, and the gadget takes the `arity` wires of a call to its result. From all results `validity` makes
/// the value that is zero where the input keeps the rules. Only `encode_list`, `encode` and `truncate` take memory.
pub trait Circuit {
    /// The field of its elements.
    type F: Field;

    /// What it computes.
    ghost shape: { Self → Shape Self.F };

    /// The input of a measurement, which is a list of numbers: `BadValue` exactly where it isn't one of the kind.
    fn encode_list(&self, alloc: Global, m: &[u64]) -> Result<Vec<Self::F>, EncodeFault>
        ensures value { IfOk result (λ x. (shape self.now).encode m.now ≡ Some x.items) }
        ensures bad_value { (result ≡ Err EncodeFault.BadValue) ↔ ((shape self.now).encode m.now ≡ None) };

    /// The input of a measurement of one number, likewise.
    fn encode(&self, alloc: Global, m: u64) -> Result<Vec<Self::F>, EncodeFault>
        ensures value { IfOk result (λ x. (shape self.now).encode (m ∷ []) ≡ Some x.items) }
        ensures bad_value { (result ≡ Err EncodeFault.BadValue) ↔ ((shape self.now).encode (m ∷ []) ≡ None) }
    {
        self.encode_list(alloc, &[m])
    }

    /// The out share of an input or of a share of one: `out_len` elements, whose sums over reports are aggregated.
    fn truncate(&self, alloc: Global, x: &[Self::F]) -> Result<Vec<Self::F>, AllocError>
        requires { length x.now ≡ (shape self.now).input_len }
        ensures { IfOk result (λ out. out.items ≡ (shape self.now).truncate x.now) };

    /// How many elements an input has.
    fn input_len(&self) -> usize
        ensures { result ≡ (shape self.now).input_len };

    /// How many elements an out share has.
    fn out_len(&self) -> usize
        ensures { result ≡ (shape self.now).out_len };

    /// How many elements of joint randomness `validity` takes.
    fn joint_len(&self) -> usize
        ensures { result ≡ (shape self.now).joint_len };

    /// How often the gadget is called.
    fn calls(&self) -> usize
        ensures { result ≡ (shape self.now).calls };

    /// How many wires the gadget has.
    fn arity(&self) -> usize
        ensures { result ≡ (shape self.now).arity };

    /// What wire `wire` carries in call `call`, calls counting from 1 and wires from 0.
    fn input(&self, x: &[Self::F], call: usize, wire: usize) -> Self::F
        requires length { length x.now ≡ (shape self.now).input_len }
        requires first_call { 1 ≤ call }
        requires last_call { call ≤ (shape self.now).calls }
        requires wire { wire < (shape self.now).arity }
        ensures { result ≡ (shape self.now).input x.now call wire };

    /// The gadget's result, a polynomial of degree at most 2 in its wires.
    fn gadget(&self, wires: &[Self::F]) -> Self::F
        requires { length wires.now ≡ (shape self.now).arity }
        ensures { result ≡ gadget Self.F.ring (shape self.now) wires.now };

    /// The validity value, over the results of the calls in order. `one` is 1 for a whole input, and for shares of it
    /// any elements that add to 1.
    fn validity(
        &self,
        one: Self::F,
        x: &[Self::F],
        joint: &[Self::F],
        results: &[Self::F],
    ) -> Self::F
        requires length { length x.now ≡ (shape self.now).input_len }
        requires joint { length joint.now ≡ (shape self.now).joint_len }
        requires results { length results.now ≡ (shape self.now).calls }
        ensures { result ≡ (shape self.now).validity one x.now joint.now results.now };

    /// Its sizes are within limits, and wires and validity are linear.
    ghost laws: { (c : Self) → ShapeLaws Self.F.ring (shape c) };

    /// Encodings are valid inputs, and out shares add.
    ghost codes: { (c : Self) → EncodeLaws Self.F.ring (shape c) };
}
