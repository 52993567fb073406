//! Sums of out shares in any order.
ghost use Rattle.std.specs.Prelude.{◌≡◌, ℕ, List, IsPermutation};
ghost use Rattle.vdaf_api.specs.Totals.{total};

use crate::vdaf::Vdaf;

/// A law: no order of out shares changes their sum.
pub fn no_order_changes_a_total<V: Vdaf>(v: &V)
    ensures { (shares others : List (List ℕ)) → IsPermutation shares others
        → total (V.functions v.now).space others ≡ total (V.functions v.now).space shares }
{}
