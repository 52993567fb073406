//! Laws of circuits, for the layers above.

ghost use Rattle.std.specs.Prelude.{◌≡◌, ◌+◌, ◌<◌, ◌≤◌, ℕ, List, length};
ghost use Rattle.std.specs.List.Sorted.{IsStrictlyIncreasing};
ghost use Rattle.flp_circuits.specs.declared.histogram.TheConstants.{MOST_BOUNDS};
ghost use Rattle.flp_circuits.specs.Kinds.{count_shape, sum_shape, histogram_shape};
ghost use Rattle.flp_circuits.specs.Shape.{ShapeLaws, EncodeLaws, IsValid, IsEncoding};
ghost use Rattle.flp_circuits.specs.StaysValid.{StaysValid, StaysValidAtPairs};

use crate::circuit::Circuit;
use field_laws::Field;

/// A law: a circuit has 1 to 2,047 calls, 1 or 2 wires, and at most 8,192 elements of input and of joint randomness;
/// `input` is linear in the input, and `validity` in `one`, the input and the results together.
pub fn shares_are_linear<C: Circuit>(c: &C)
    ensures { ShapeLaws C.F.ring (C.shape c.now) }
{}

/// A law: an encoding has the input's length and the validity value 0 at each joint randomness; out shares have 1 to
/// 1,024 elements, and the out share of a sum is the sum of the out shares.
pub fn encodings_are_valid<C: Circuit>(c: &C)
    ensures { EncodeLaws C.F.ring (C.shape c.now) }
{}

/// A law: an input of one element that is valid as a count is the encoding of 0 or of 1.
pub fn only_counts_are_valid<E: Field>()
    ensures { (x joint : List E) → length x ≡ 1 → IsValid E.ring (count_shape E.ring) x joint
        → IsEncoding (count_shape E.ring) x }
{}

/// A law: an input that is valid as a sum at more values of the joint randomness than it has bits is an encoding. So an
/// input that is none is valid at no more values than it has bits; 0 is always one of them.
pub fn only_sums_stay_valid<E: Field>()
    ensures { (bits : ℕ) (x rs : List E) → length x ≡ bits → bits < length rs
        → StaysValid E.ring (sum_shape E.ring bits) x rs → IsEncoding (sum_shape E.ring bits) x }
{}

/// A law: an input that is valid as a histogram at more first elements of the joint randomness than it has buckets, at
/// three second elements with each, is an encoding. So an input that is none is valid at no more than two second
/// elements with each first one, but for as many first ones as it has buckets. Measurements are whole numbers here: one
/// above the last bound has the last bucket, also where that bound is the greatest u64.
pub fn only_histograms_stay_valid<E: Field>()
    ensures { (bounds : List ℕ) (x firsts : List E) (seconds : ℕ → List E) → length bounds ≤ MOST_BOUNDS
        → IsStrictlyIncreasing bounds → length x ≡ length bounds + 1 → length bounds + 1 < length firsts
        → StaysValidAtPairs E.ring (histogram_shape E.ring bounds) x firsts seconds
        → IsEncoding (histogram_shape E.ring bounds) x }
{}
