//! Identifiers of items.

ghost use Rattle.std.specs.Prelude.{◌≡◌};
ghost use Rattle.legal_journals.specs.HistoryTests.{same_ids};

use dap_messages::Tagged;

/// Whether both lists have the same identifiers in order.
pub(crate) fn same_ids<A, B>(left: &[Tagged<A>], right: &[Tagged<B>]) -> bool
    ensures { result ≡ same_ids left.now right.now }
{
    match (left, right) {
        ([], []) => true,
        ([one, left @ ..], [other, right @ ..]) => one.id() == other.id() && same_ids(left, right),
        _ => false,
    }
}
