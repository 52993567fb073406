//! The laws of measurement functions, for the layers above.
ghost use Rattle.std.specs.Prelude.{◌≤◌, ℕ, List, length};
ghost use Rattle.vdaf_api.specs.Vectors.{IsOut};
ghost use Rattle.vdaf_api.specs.Promises.{CombinesSharesAlone, CountsHonestReports, MakesShortMessages, MakesShortParts, MakesShortShares, OutSharesAdd, StartsHalvesAlone};
ghost use Rattle.vdaf_api.specs.Totals.{TotalsAreAnswered};
ghost use Rattle.vdaf_api.specs.declared.space.TheConstants.{MOST_OUT};

use crate::vdaf::Vdaf;

/// A law: an honest fair report is prepared, and its content is the measurement's vector.
pub fn honest_reports_are_counted<V: Vdaf>(v: &V)
    ensures { CountsHonestReports (V.functions v.now) }
{}

/// A law: the two out shares of a report that is prepared add to its content.
pub fn out_shares_add_to_contents<V: Vdaf>(v: &V)
    ensures { OutSharesAdd (V.functions v.now) }
{}

/// A law: two sums of out shares add to the sum of the contents.
pub fn sums_are_answered<V: Vdaf>(v: &V)
    ensures { TotalsAreAnswered (V.functions v.now).space }
{}

/// A law: shares, prep shares and prep messages are short.
pub fn lengths_are_bounded<V: Vdaf>(v: &V)
    ensures parts { MakesShortParts (V.functions v.now) }
    ensures share { MakesShortShares (V.functions v.now) }
    ensures message { MakesShortMessages (V.functions v.now) }
    ensures out { (out : List ℕ) → IsOut (V.functions v.now).space out → length out ≤ MOST_OUT }
{}

/// A law: what has not the form of a half has no prep share, and what has not that of a prep share no prep message. So
/// `init` and `combine` answer `Invalid` there, and never that memory ran out.
pub fn forms_are_needed<V: Vdaf>(v: &V)
    ensures half { StartsHalvesAlone (V.functions v.now) }
    ensures shares { CombinesSharesAlone (V.functions v.now) }
{}
