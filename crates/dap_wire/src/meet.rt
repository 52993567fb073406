//! Two ends of one link that are in one thread.

ghost use Rattle.dap_wire.specs.Link.{Link, IsLink};
ghost use Rattle.dap_wire.specs.Calls.{Looks};
ghost use Rattle.dap_wire.specs.Meet.{HaveMet};

use crate::end::LinkEnd;
use dap_outside::Fates;

/// What has an end of a link: the end itself, or a lane or front that holds it.
pub trait Meet<T: Fates> {
    /// The end that it has.
    ghost end: { Self → Link T };

    /// All else that the value holds stays as it is.
    ghost stays: { Self → Self → Type 0 };

    /// Tells each of the two ends of one link how far the other is. It takes no memory.
    fn meet(&mut self, near: &mut LinkEnd<T>)
        requires { IsLink near.old (end self.old) }
        ensures near { Looks near.old near.new }
        ensures far { Looks (end self.old) (end self.new) }
        ensures met { HaveMet near.new (end self.new) }
        ensures stays { stays self.old self.new };
}

impl<T: Fates> Meet<T> for LinkEnd<T> {
    ghost end = { λ e. e };

    ghost stays = { λ old new. Looks old new };

    fn meet(&mut self, near: &mut LinkEnd<T>) {
        // The consumers look last, so that what waits is known in full. They leave room as it is or more.
        near.out.slots_beside(&mut self.ring);
        self.out.slots_beside(&mut near.ring);
        self.ring.slots_beside(&mut near.out);
        near.ring.slots_beside(&mut self.out);
    }
}
