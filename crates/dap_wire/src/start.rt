//! A value as it was at some time, for clauses alone.

ghost use Rattle.std.specs.Prelude.{◌≡◌};
ghost use Rattle.std.specs.Borrow.{ftrue};

use std::marker::{Model, PhantomData};

/// A value as it was, as the fates of an end when its link was made. Only clauses read it: it has no bytes
/// and owns nothing, and it may move to another thread where the value may.
#[derive(Drop)]
pub struct Start<T> {
    marker: PhantomData<T>,
    pub ghost value: { T },
}

impl<T> Model for Start<T> {
    ghost also_owns = { λ _. ftrue };
}

// SAFETY: it owns nothing and refers to nothing.
unsafe impl<T: Send> Send for Start<T> {}

impl<T> Start<T> {
    /// The value as it is now.
    pub fn of(x: &T) -> Start<T>
        ensures { result.value ≡ x.now }
    {
        let _ = x;
        Start {
            marker: PhantomData,
        }
    }
}
