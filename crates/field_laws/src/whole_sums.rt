//! Sums of vectors as whole numbers, and in any order.

ghost use Rattle.std.specs.Prelude.{◌≡◌, ℕ, ◌%◌, ◌<◌, List, map, IsPermutation};
ghost use Rattle.field_laws.specs.Vector.{sum_of};
ghost use Rattle.field_laws.specs.WholeSums.{HaveEntries, entry_sum, whole_sum};

/// A law: the sum modulo p of vectors of n entries has, at each place, the sum of the entries there in whole numbers,
/// modulo p. So where each of these is below p, it is the sum in whole numbers.
pub fn sums_are_whole_below_the_modulus()
    ensures modulo { (p n : ℕ) (vectors : List (List ℕ)) → HaveEntries n vectors
        → sum_of p n vectors ≡ map (λ total. total % p) (whole_sum n vectors) }
    ensures whole { (p n : ℕ) (vectors : List (List ℕ)) → HaveEntries n vectors
        → ((place : ℕ) → place < n → entry_sum vectors place < p) → sum_of p n vectors ≡ whole_sum n vectors }
{}

/// A law: no order of the vectors changes their sum.
pub fn no_order_changes_a_sum()
    ensures { (p n : ℕ) (vectors others : List (List ℕ)) → IsPermutation vectors others
        → sum_of p n others ≡ sum_of p n vectors }
{}
