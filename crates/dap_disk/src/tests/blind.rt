//! A disk that tells nothing, as a real file.
ghost use Rattle.std.specs.Prelude.{◌≡◌, false, None, IsTrue, OnOk, OnErr, IsErr};
ghost use Rattle.dap_bytes.specs.Causes.{Counts};

use crate::{Dead, Disk, Down, StoreFault};

/// A disk that takes three calls and stops at the fourth, whatever the bytes.
#[derive(Drop)]
pub struct Blind {
    up: bool,
    calls: u64,
    downs: u64,
}

impl Blind {
    /// A disk that is up.
    pub fn new() -> Self
        ensures { IsTrue (⟦<Blind as Disk>⟧.up result) }
    {
        Blind {
            up: true,
            calls: 0,
            downs: 0,
        }
    }

    fn count(&mut self) -> Result<(), Down>
        ensures ok { OnOk result (self.new.up ≡ self.old.up) }
        ensures err { OnErr result (self.new.up ≡ false) }
        ensures counts { Counts (IsErr result) self.old.downs self.new.downs }
    {
        self.calls = self.calls.saturating_add(1);
        if self.calls <= 3 {
            return Ok(());
        }
        self.up = false;
        self.downs = self.downs.saturating_add(1);
        Err(Down)
    }
}

impl Disk for Blind {
    ghost holds = { λ _. None };

    ghost up = { λ d. d.up };

    ghost may_leave = { λ _ _. ⊥ };

    ghost moment = { λ _. 0 };

    ghost left_since = { λ _ _ _. ⊥ };

    ghost downs = { λ d. d.downs };

    ghost deads = { λ _. 0 };

    ghost moves = { λ _ _ _. Unit {0} };

    ghost counts_now = { λ d t c le now. now };

    ghost only_now = { λ d c left. left };

    ghost fits = { λ d c is. absurd (Prim.cc is) };

    ghost held_may_stay = { λ d c up is. absurd (Prim.cc is) };

    fn len(&mut self) -> Result<u64, Down> {
        self.count()?;
        Ok(self.calls)
    }

    fn read(&mut self, _at: u64, buf: &mut [u8]) -> Result<usize, Down> {
        self.count()?;
        Ok(buf.len().min(1))
    }

    fn write_at(&mut self, _at: u64, _bytes: &[u8]) -> Result<(), StoreFault> {
        self.count()?;
        Ok(())
    }

    fn cut(&mut self, _len: u64) -> Result<(), StoreFault> {
        self.count()?;
        Ok(())
    }

    fn sync(&mut self) -> Result<(), Down> {
        self.count()
    }

    fn restart(&mut self) -> Result<(), Dead> {
        self.up = true;
        Ok(())
    }
}
