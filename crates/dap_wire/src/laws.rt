//! What holds of ends between calls, wherever these are made.

ghost use Rattle.std.specs.Prelude.{◌≡◌, []};
ghost use mathlib.Core.List.{IsPrefix};
ghost use Rattle.dap_wire.specs.Link.{Link, IsLink, known};
ghost use Rattle.dap_wire.specs.Calls.{SameEnd};
ghost use Rattle.dap_wire.specs.Meet.{HaveMet};

use dap_outside::Fates;

/// A law: each call leaves an end the end of its rings. So two ends of one link that were moved apart are
/// the ends of one link after any calls on either, and may meet again.
pub fn ends_stay_linked<T: Fates>()
    ensures { (a b a' b' : Link T) → IsLink a b → SameEnd a a' → SameEnd b b' → IsLink a' b' }
{}

/// A law: where two ends have met, what one received is the beginning of what the other sent. Once it reads
/// its ring to be empty in a later call, it has received all that was sent until the meet.
pub fn received_is_the_beginning_of_sent<T: Fates>()
    ensures there { (a b : Link T) → HaveMet a b → IsPrefix b.received a.sent }
    ensures back { (a b : Link T) → HaveMet a b → IsPrefix a.received b.sent }
    ensures all { (a b now : Link T) → HaveMet a b → IsPrefix (known b) (known now) → now.waiting ≡ [] →
        IsPrefix a.sent now.received }
{}
