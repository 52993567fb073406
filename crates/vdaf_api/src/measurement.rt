//! The numbers of a measurement.
ghost use Rattle.std.specs.Prelude.{◌≡◌, [], IsTrue, ◌↔◌, length};
ghost use Rattle.std.specs.Cmp.{partial_equiv_from_equiv};
ghost use Rattle.std.specs.Cmp.Lexicographic.{nat_list_eq_equiv};
ghost use Rattle.std.specs.Str.{bytes_eq};

use std::alloc::AllocError;
use std::marker::Model;

/// A measurement: its numbers in order, which for every kind but a vector is one number. It may be of no kind at all.
/// Contracts see the list of them.
#[derive(Debug, Drop)]
pub struct Measurement {
    items: Vec<u64>,
}

impl Model for Measurement {
    ghost use Rattle.std.specs.Prelude.{List, ℕ};

    ghost Value = { List ℕ };

    ghost view = { λ b. b.items.items };
}

impl Measurement {
    /// The numbers of a `Vec`. It takes no memory.
    pub fn new(items: Vec<u64>) -> Self
        ensures { result ≡ items.items }
    {
        Measurement { items }
    }

    /// The `Vec` again. It takes no memory.
    pub fn into_vec(self) -> Vec<u64>
        ensures { result.items ≡ self }
    {
        let Measurement { items } = self;
        items
    }

    /// The numbers as a slice.
    pub fn as_slice(&self) -> &[u64]
        ensures { result.now ≡ self.now }
    {
        &self.items
    }

    /// How many numbers there are.
    pub fn len(&self) -> usize
        ensures { result ≡ length self.now }
    {
        self.items.len()
    }

    /// Whether there are none.
    pub fn is_empty(&self) -> bool
        ensures { IsTrue result ↔ (self.now ≡ []) }
    {
        self.items.is_empty()
    }
}

impl Clone for Measurement {
    ghost is_clone = { λ b copy. copy ≡ b };

    fn clone(&self) -> Result<Measurement, AllocError> {
        let items = self.items.clone()?;
        Ok(Measurement { items })
    }
}

impl PartialEq for Measurement {
    ghost eq = { bytes_eq };

    ghost laws = { partial_equiv_from_equiv nat_list_eq_equiv };

    fn eq(&self, other: &Measurement) -> bool {
        self.items == other.items
    }
}

impl Eq for Measurement {
    ghost laws = { nat_list_eq_equiv };
}
