//! Laws of vectors, for the layers above.

ghost use Rattle.std.specs.Prelude.{◌≡◌, ◌<◌, ◌*◌, ℕ, List, Some, length, map};
ghost use Rattle.field128.specs.declared.element.Field128.{Field128};
ghost use Rattle.field128.specs.Element.{ring_of, number_of};
ghost use Rattle.flp_circuits.specs.Shape.{IsEncoding};
ghost use Rattle.flp_circuits.specs.StaysValid.{StaysValid};
ghost use Rattle.circuit_vector.specs.Vector.{AreSizes, list_encoding, vector_shape};
ghost use Rattle.circuit_vector.specs.Kept.{IsKept};

/// A law: the input of a list has the circuit's length, is valid at each joint randomness, and its out share has the
/// numbers of the list in order.
pub fn lists_are_kept()
    ensures { (len bits : ℕ) (ms : List ℕ) (x : List Field128) → AreSizes len bits
        → list_encoding ring_of len bits ms ≡ Some x → IsKept len bits ms x }
{}

/// A law: an input that is valid at more values of the joint randomness than it has elements is that of a list. So an
/// input that is none is valid at no more values than it has elements; 0 is always one of them.
pub fn only_lists_stay_valid()
    ensures { (len bits : ℕ) (x rs : List Field128) → length x ≡ len * bits → len * bits < length rs
        → StaysValid ring_of (vector_shape ring_of len bits) x rs → IsEncoding (vector_shape ring_of len bits) x }
{}
