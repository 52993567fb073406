//! Laws of fields, for the layers above.

ghost use Rattle.std.specs.Prelude.{◌≡◌, ◌≢◌, ℕ, ◌+◌, ◌/◌, ◌^◌, ◌<◌, ◌≤◌, List, length, map, replicate};
ghost use Rattle.std.specs.List.{range_with_len};
ghost use Rattle.field_laws.specs.Ring.{RingLaws, HasOrder, power};
ghost use Rattle.field_laws.specs.Residues.{IsModular};
ghost use Rattle.field_laws.specs.Bytes.{low_bytes, from_low};
ghost use Rattle.field_laws.specs.Primes.{IsPrime, NoDivisors};
ghost use Rattle.field_laws.specs.Points.{AreDifferent, AreRoots};

use crate::element::Field;

/// A law: sums, differences, products and powers are those of the numbers modulo p.
pub fn results_are_modular<F: Field>()
    ensures { IsModular F.MODULUS F.number F.ring }
{}

/// A law: zero, one, sum, negative and product make a commutative ring with one.
pub fn ring_is_commutative<F: Field>()
    ensures { RingLaws F.ring }
{}

/// A law: numbers are below p, and elements of one number are one element.
pub fn elements_are_their_numbers<F: Field>()
    ensures is_below_the_modulus { (x : F) → F.number x < F.MODULUS }
    ensures is_one_where_numbers_are { (x y : F) → F.number x ≡ F.number y → x ≡ y }
{}

/// A law: `root(log)` has order 2^log and no less, and halfway there it is minus one.
pub fn roots_have_their_order<F: Field>()
    ensures has_its_order { (log : ℕ) → log ≤ 16 → HasOrder F.ring (F.root_of log) (2 ^ log) }
    ensures is_minus_one_halfway { (log : ℕ) → log < 16
        → power F.ring (F.root_of (log + 1)) (2 ^ log) ≡ F.ring.neg F.ring.unit }
{}

/// A law: the first 2^log powers of `root(log)` are different. They are roots of X^(2^log) - 1, so that `roots_are_few`
/// allows no fewer.
pub fn roots_of_one_are_different<F: Field>()
    ensures { (log : ℕ) → log ≤ 16
        → AreDifferent F.ring (map (power F.ring (F.root_of log)) (range_with_len 0 (2 ^ log))) }
{}

/// A law: `half` added to itself is one, and its number is (p + 1) / 2.
pub fn halves_make_one<F: Field>()
    ensures makes_one { F.ring.add F.half_of F.half_of ≡ F.ring.unit }
    ensures is_half_of_one_more { F.number F.half_of ≡ (F.MODULUS + 1) / 2 }
{}

/// A law: an element is spelled in `WIDTH` bytes, which spell its number.
pub fn bytes_spell_elements<F: Field>()
    ensures fills_the_width { (x : F) → length (low_bytes F.WIDTH (F.number x)) ≡ F.WIDTH }
    ensures spells_the_number { (x : F) → from_low (low_bytes F.WIDTH (F.number x)) ≡ F.number x }
{}

/// A law: the modulus is prime, so that a product is zero only where a factor is.
pub fn products_are_zero_by_a_factor<F: Field>()
    ensures modulus_is_prime { IsPrime F.MODULUS }
    ensures a_factor_is_zero { NoDivisors F.ring }
{}

/// A law: a polynomial with n coefficients that aren't all zero has fewer than n roots.
pub fn roots_are_few<F: Field>()
    ensures { (p roots : List F) → p ≢ replicate (length p) F.ring.nought → AreDifferent F.ring roots
        → AreRoots F.ring p roots → length roots < length p }
{}
