//! What becomes of the messages of a link.

ghost use Rattle.std.specs.Prelude.{◌≡◌, ℕ, List, Option, IfOk, OnErr};
ghost use Rattle.dap_outside.specs.Fates.{drops_after, row_after, carried_after};

use std::alloc::AllocError;

/// What becomes of a message.
#[derive(Clone, Copy, Debug, PartialEq, Eq)]
pub enum Fate {
    /// It is handed on.
    Deliver,
    /// It is lost.
    Drop,
    /// It is handed on now, and once more later.
    Twice,
    /// It is handed on later.
    Hold,
}

impl Fate {
    /// How many Drops in a row there are after this fate, where there were `row` before it.
    /// The count stands still at its type's end.
    pub fn row_after(self, row: u64) -> u64
        ensures { result ≡ row_after self row }
    {
        match self {
            Fate::Drop => row.saturating_add(1),
            Fate::Deliver | Fate::Twice | Fate::Hold => 0,
        }
    }

    /// How many Drops there are after this fate, where there were `drops` before it.
    /// The count stands still at its type's end.
    pub fn drops_after(self, drops: u64) -> u64
        ensures { result ≡ drops_after self drops }
    {
        match self {
            Fate::Drop => drops.saturating_add(1),
            Fate::Deliver | Fate::Twice | Fate::Hold => drops,
        }
    }
}

/// What decides over the messages of one direction of a link: a network, or a list in its place.
pub trait Fates: Drop {
    ghost use Rattle.dap_outside.specs.declared.fates.Fate.{Fate};

    /// How many messages were dropped.
    ghost drops: { Self → ℕ };

    /// How many messages were dropped since the last other fate, or since the making.
    ghost in_row: { Self → ℕ };

    /// The messages that weren't dropped, in order, where this is told.
    ghost carried: { Self → Option (List (List ℕ)) };

    /// Whether, asked about a message, the first value may give this fate and be the second one then.
    ghost gives: { Self → List ℕ → Fate → Self → Type 0 };

    /// Gives the fate of a message, and counts it. Want of memory leaves all as it was.
    fn fate(&mut self, message: &[u8]) -> Result<Fate, AllocError>
        ensures given { IfOk result (λ fate. gives self.old message.now fate self.new) }
        ensures drops { IfOk result (λ fate. drops self.new ≡ drops_after fate (drops self.old)) }
        ensures row { IfOk result (λ fate. in_row self.new ≡ row_after fate (in_row self.old)) }
        ensures carried { IfOk result (λ fate. carried self.new ≡ carried_after fate message.now (carried self.old)) }
        ensures err { OnErr result (self.new ≡ self.old) };
}
