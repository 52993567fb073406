//! Fates by a list.

ghost use Rattle.std.specs.Prelude.{◌≡◌, IfOk, IsOk, None};
ghost use Rattle.dap_outside.specs.Fates.{drops_after, row_after, carried_after};
ghost use Rattle.dap_outside.specs.FateList.{next_fate, after_next};

use crate::{Fate, Fates};
use std::alloc::AllocError;
use std::marker::Model;

/// The fates of a list, and then one for good. It doesn't tell what it carried.
#[derive(Debug, Drop)]
pub struct ListFates {
    fates: Vec<Fate>,
    then: Fate,
    // How many of the list were given.
    given: usize,
    drops: u64,
    row: u64,
}

impl Model for ListFates {
    ghost use Rattle.std.specs.Prelude.{◌≤◌, drop, length};
    ghost use Rattle.dap_outside.specs.FateList.{FateList};

    ghost Value = { FateList };

    ghost view = { λ a. record {
      coming = drop a.given a.fates.items;
      after = a.then;
      drops = a.drops;
      row = a.row;
    } };

    ghost invariant = { λ a. a.given ≤ length a.fates.items };
}

impl ListFates {
    /// Gives the fates of the list in order, and then `then` for good. It takes no memory.
    pub fn new(fates: Vec<Fate>, then: Fate) -> Self
        ensures { result ≡ record { coming = fates.items; after = then; drops = 0; row = 0 } }
    {
        ListFates {
            fates,
            then,
            given: 0,
            drops: 0,
            row: 0,
        }
    }

    /// The fate that comes next.
    pub(crate) fn next_fate(&self) -> Fate
        ensures { result ≡ next_fate self.now }
    {
        self.fates.get(self.given).copied().unwrap_or(self.then)
    }

    /// Gives the next fate, and counts it.
    pub(crate) fn advance(&mut self) -> Fate
        ensures fate { result ≡ next_fate self.old }
        ensures next { self.new ≡ after_next self.old }
    {
        let fate = self.next_fate();
        self.given = (self.given + 1).min(self.fates.len());
        self.drops = fate.drops_after(self.drops);
        self.row = fate.row_after(self.row);
        fate
    }
}

impl Fates for ListFates {
    ghost drops = { λ a. a.drops };

    ghost in_row = { λ a. a.row };

    ghost carried = { λ _. None };

    ghost gives = { λ old _ fate new. (fate ≡ next_fate old) × (new ≡ after_next old) };

    /// Never out of memory.
    fn fate(&mut self, _message: &[u8]) -> Result<Fate, AllocError>
        ensures succeeds { IsOk result }
        ensures given { IfOk result (λ fate. (fate ≡ next_fate self.old) × (self.new ≡ after_next self.old)) }
        ensures drops { IfOk result (λ fate. self.new.drops ≡ drops_after fate self.old.drops) }
        ensures row { IfOk result (λ fate. self.new.row ≡ row_after fate self.old.row) }
    {
        Ok(self.advance())
    }
}
