//! The steps of a receive, each over the parts of an end that it changes.

ghost use Rattle.std.specs.Prelude.{◌≡◌, ◌<◌, ◌≤◌, [], ◌∷◌, ◌++◌, IfOk, OnErr, length};
ghost use Rattle.std.specs.VecDeque.{deque_len, deque_capacity};
ghost use Rattle.rtrb.specs.Ring.{received, known_items};
ghost use Rattle.dap_outside.specs.declared.fates.Fate.TheVariants.{Twice};
ghost use Rattle.dap_wire.specs.Ring.{in_ring};
ghost use Rattle.dap_wire.specs.Fated.{IsFated, answer_of, kept_of, Releases};

use crate::recv::Recv;
use dap_bytes::Bytes;
use dap_outside::{Fate, Fates};
use rtrb::Consumer;
use std::alloc::AllocError;
use std::collections::VecDeque;

/// Shows the oldest message to the fates, and takes it from the ring with its fate.
pub(crate) fn pop_fated<T: Fates>(
    ring: &mut Consumer<Bytes>,
    fates: &mut T,
) -> Result<(Fate, Bytes), AllocError>
    requires { 0 < length (known_items ring.old) }
    ensures ring { in_ring ring.new ≡ in_ring ring.old }
    ensures taken { IfOk result (λ r. (received ring.new ≡ received ring.old ++ r.1 ∷ [])
        × (known_items ring.old ≡ r.1 ∷ known_items ring.new)) }
    ensures fated { IfOk result (λ r. IsFated T.gives T.drops T.in_row T.carried fates.old fates.new r.0 r.1) }
    ensures later { T.drops fates.old ≤ T.drops fates.new }
    ensures err { OnErr result ((received ring.new ≡ received ring.old) × (known_items ring.new ≡ known_items ring.old)
        × (fates.new ≡ fates.old)) }
{
    let message = ring.peek_known();
    let fate = fates.fate(message.as_slice())?;
    let message = ring.pop_known();
    Ok((fate, message))
}

/// Holds back what the fate keeps of a message, and says what is handed on.
/// Where the copy of a message that comes twice finds no memory, the message itself is held.
pub(crate) fn hold_back(
    held: &mut VecDeque<Bytes>,
    fate: Fate,
    message: Bytes,
) -> Result<Recv, AllocError>
    requires { deque_len held.old < deque_capacity held.old }
    ensures held { held.new.items ≡ held.old.items ++ kept_of fate message }
    ensures ok { IfOk result (λ answer. answer ≡ answer_of fate message) }
    ensures err { OnErr result (fate ≡ Twice) }
{
    match fate {
        Fate::Deliver => Ok(Recv::Message(message)),
        Fate::Drop => Ok(Recv::Dropped),
        Fate::Hold => {
            held.push_back_reserved(message);
            Ok(Recv::Held)
        }
        Fate::Twice => {
            let Ok(copy) = message.clone() else {
                held.push_back_reserved(message);
                return Err(AllocError);
            };
            held.push_back_reserved(copy);
            Ok(Recv::Message(message))
        }
    }
}

/// Hands on the oldest message that is held.
pub(crate) fn release(held: &mut VecDeque<Bytes>) -> Recv
    ensures { Releases result held.old.items held.new.items }
{
    match held.pop_front() {
        Some(message) => Recv::Message(message),
        None => Recv::Empty,
    }
}
