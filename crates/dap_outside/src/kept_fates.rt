//! Fates by a list, with what they carried.

ghost use Rattle.std.specs.Prelude.{◌≡◌, [], Some};
ghost use Rattle.dap_outside.specs.FateList.{next_fate, after_next};

use crate::{Fate, Fates, ListFates};
use dap_bytes::Bytes;
use std::alloc::{AllocError, Global};
use std::marker::Model;

/// The fates of a list, which keep a copy of each message that isn't dropped, and tell these.
#[derive(Debug, Drop)]
pub struct KeptFates {
    list: ListFates,
    kept: Vec<Bytes>,
    alloc: Global,
}

impl Model for KeptFates {
    ghost use Rattle.dap_outside.specs.FateList.{KeptList};

    ghost Value = { KeptList };

    ghost view = { λ a. record { list = a.list; carried = a.kept.items } };
}

impl KeptFates {
    /// Gives the fates of the list in order, and then `then` for good.
    /// It keeps the allocator, and takes no memory.
    pub fn new(alloc: Global, fates: Vec<Fate>, then: Fate) -> Self
        ensures list { result.list ≡ record { coming = fates.items; after = then; drops = 0; row = 0 } }
        ensures carried { result.carried ≡ [] }
    {
        KeptFates {
            list: ListFates::new(fates, then),
            kept: Vec::new(alloc),
            alloc,
        }
    }

    /// The messages that weren't dropped, in order. It takes no memory.
    pub fn carried(&self) -> &[Bytes]
        ensures { result.now ≡ self.now.carried }
    {
        &self.kept
    }
}

impl Fates for KeptFates {
    ghost drops = { λ a. a.list.drops };

    ghost in_row = { λ a. a.list.row };

    ghost carried = { λ a. Some a.carried };

    ghost gives = { λ old _ fate new. (fate ≡ next_fate old.list) × (new.list ≡ after_next old.list) };

    fn fate(&mut self, message: &[u8]) -> Result<Fate, AllocError> {
        if self.list.next_fate() != Fate::Drop {
            let copy = message.to_vec(self.alloc)?;
            self.kept.push(Bytes::new(copy))?;
        }
        Ok(self.list.advance())
    }
}

#[cfg(test)]
mod tests {
    use crate::{Fate, Fates, KeptFates, ListFates};
    use std::test::Fail;

    #[test]
    fn fates_come_by_the_list_and_are_counted(rt: HostRuntime) -> Result<(), Fail> {
        let alloc = rt.alloc();
        let list = [Fate::Twice, Fate::Drop, Fate::Drop, Fate::Hold];
        let mut plain = ListFates::new(list.to_vec(alloc)?, Fate::Deliver);
        let mut kept = KeptFates::new(alloc, list.to_vec(alloc)?, Fate::Deliver);
        let wanted = [
            Fate::Twice,
            Fate::Drop,
            Fate::Drop,
            Fate::Hold,
            Fate::Deliver,
            Fate::Deliver,
        ];
        for (byte, fate) in (0..6u8).zip(wanted) {
            assert_eq!(rt; plain.fate(&[byte])?, fate);
            assert_eq!(rt; kept.fate(&[byte])?, fate);
        }
        let carried = kept.carried();
        assert_eq!(rt; carried.len(), 4);
        for (message, byte) in carried.iter().zip([0, 3, 4, 5]) {
            assert_eq!(rt; message.as_slice(), [byte].as_slice());
        }
        Ok(())
    }
}
