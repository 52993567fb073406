//! The bounds of a histogram.
ghost use Rattle.std.specs.Prelude.{◌≡◌, [], IsTrue, ◌↔◌, length};
ghost use Rattle.std.specs.Cmp.{partial_equiv_from_equiv};
ghost use Rattle.std.specs.Cmp.Lexicographic.{nat_list_eq_equiv};
ghost use Rattle.std.specs.Str.{bytes_eq};

use std::alloc::AllocError;
use std::marker::Model;

/// The upper bounds of a histogram's buckets, all but the last bucket's. Contracts see the list of them.
#[derive(Debug, Drop)]
pub struct Bounds {
    items: Vec<u64>,
}

impl Model for Bounds {
    ghost use Rattle.std.specs.Prelude.{List, ℕ};

    ghost Value = { List ℕ };

    ghost view = { λ b. b.items.items };
}

impl Bounds {
    /// The bounds of a `Vec`. It takes no memory.
    pub fn new(items: Vec<u64>) -> Self
        ensures { result ≡ items.items }
    {
        Bounds { items }
    }

    /// The `Vec` again. It takes no memory.
    pub fn into_vec(self) -> Vec<u64>
        ensures { result.items ≡ self }
    {
        let Bounds { items } = self;
        items
    }

    /// The bounds as a slice.
    pub fn as_slice(&self) -> &[u64]
        ensures { result.now ≡ self.now }
    {
        &self.items
    }

    /// How many bounds there are.
    pub fn len(&self) -> usize
        ensures { result ≡ length self.now }
    {
        self.items.len()
    }

    /// Whether there are none.
    pub fn is_empty(&self) -> bool
        ensures { IsTrue result ↔ (self.now ≡ []) }
    {
        self.items.is_empty()
    }
}

impl Clone for Bounds {
    ghost is_clone = { λ b copy. copy ≡ b };

    fn clone(&self) -> Result<Bounds, AllocError> {
        let items = self.items.clone()?;
        Ok(Bounds { items })
    }
}

impl PartialEq for Bounds {
    ghost eq = { bytes_eq };

    ghost laws = { partial_equiv_from_equiv nat_list_eq_equiv };

    fn eq(&self, other: &Bounds) -> bool {
        self.items == other.items
    }
}

impl Eq for Bounds {
    ghost laws = { nat_list_eq_equiv };
}
