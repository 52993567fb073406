//! The numbers of an answer.
ghost use Rattle.std.specs.Prelude.{◌≡◌, [], IsTrue, ◌↔◌, length};
ghost use Rattle.std.specs.Cmp.{partial_equiv_from_equiv};
ghost use Rattle.std.specs.Cmp.Lexicographic.{nat_list_eq_equiv};
ghost use Rattle.std.specs.Str.{bytes_eq};

use std::alloc::AllocError;
use std::marker::Model;

/// How many measurements fell into each bucket of a histogram, or the sums of vectors, in order. Contracts see the list
/// of them.
#[derive(Debug, Drop)]
pub struct Numbers {
    items: Vec<u128>,
}

impl Model for Numbers {
    ghost use Rattle.std.specs.Prelude.{List, ℕ};

    ghost Value = { List ℕ };

    ghost view = { λ b. b.items.items };
}

impl Numbers {
    /// The numbers of a `Vec`. It takes no memory.
    pub fn new(items: Vec<u128>) -> Self
        ensures { result ≡ items.items }
    {
        Numbers { items }
    }

    /// The `Vec` again. It takes no memory.
    pub fn into_vec(self) -> Vec<u128>
        ensures { result.items ≡ self }
    {
        let Numbers { items } = self;
        items
    }

    /// The numbers as a slice.
    pub fn as_slice(&self) -> &[u128]
        ensures { result.now ≡ self.now }
    {
        &self.items
    }

    /// How many numbers there are.
    pub fn len(&self) -> usize
        ensures { result ≡ length self.now }
    {
        self.items.len()
    }

    /// Whether there are none.
    pub fn is_empty(&self) -> bool
        ensures { IsTrue result ↔ (self.now ≡ []) }
    {
        self.items.is_empty()
    }
}

impl Clone for Numbers {
    ghost is_clone = { λ b copy. copy ≡ b };

    fn clone(&self) -> Result<Numbers, AllocError> {
        let items = self.items.clone()?;
        Ok(Numbers { items })
    }
}

impl PartialEq for Numbers {
    ghost eq = { bytes_eq };

    ghost laws = { partial_equiv_from_equiv nat_list_eq_equiv };

    fn eq(&self, other: &Numbers) -> bool {
        self.items == other.items
    }
}

impl Eq for Numbers {
    ghost laws = { nat_list_eq_equiv };
}
