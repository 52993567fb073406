//! The records of a part and the block in hand, as values.
ghost use Rattle.std.specs.Prelude.{◌≡◌, [], OnOk, OnErr};
ghost use Rattle.part_journal.specs.Pages.{begun, done, settled, reopening, reopened, lost, refused, first_pages};

use std::alloc::{AllocError, Global};
use std::marker::Model;

/// The records, and what a block in hand would add.
#[derive(Drop)]
pub(crate) struct Shelf<R> {
    // The records, and behind them those of the block in hand.
    records: Vec<R>,
    durable: usize,
    opened: bool,
    fate: Option<bool>,
}

impl<R> Model for Shelf<R> {
    ghost use Rattle.std.specs.Prelude.{◌≤◌, take, drop, length};
    ghost use Rattle.part_journal.specs.Pages.{Pages};

    ghost Value = { Pages R };

    ghost view = { λ a. record {
      records = take a.durable a.records.items;
      block = drop a.durable a.records.items;
      opened = a.opened;
      fate = a.fate;
    } };

    ghost invariant = { λ a. a.durable ≤ length a.records.items };
}

impl<R: Drop> Shelf<R> {
    /// The records before the first Open.
    pub(crate) fn new(records: Vec<R>) -> Self
        ensures { result ≡ first_pages records.items }
    {
        let durable = records.len();
        Shelf {
            records,
            durable,
            opened: false,
            fate: Some(false),
        }
    }

    /// The records, without the block in hand.
    pub(crate) fn records(&self) -> &[R]
        ensures { result.now ≡ self.now.records }
    {
        &self.records[..self.durable]
    }

    /// The block in hand.
    pub(crate) fn in_hand(&self) -> &[R]
        ensures { result.now ≡ self.now.block }
    {
        &self.records[self.durable..]
    }

    /// What became of the last block that was begun.
    pub(crate) fn fate(&self) -> Option<bool>
        ensures { result ≡ self.now.fate }
    {
        self.fate
    }

    /// A block of one record is in hand.
    pub(crate) fn reopen(&mut self, x: R) -> Result<(), AllocError>
        requires { self.old.block ≡ [] }
        ensures ok { OnOk result (self.new ≡ reopening x self.old) }
        ensures err { OnErr result (self.new ≡ self.old) }
    {
        self.records.push(x)?;
        Ok(())
    }

    /// A block is in hand, whose fate is open.
    pub(crate) fn begin(&mut self, mut block: Vec<R>) -> Result<(), AllocError>
        requires { self.old.block ≡ [] }
        ensures ok { OnOk result (self.new ≡ begun block.items self.old) }
        ensures err { OnErr result (self.new ≡ self.old) }
    {
        self.records.append(&mut block)?;
        self.fate = None;
        Ok(())
    }

    /// The block in hand counts.
    pub(crate) fn land(&mut self)
        ensures { self.new ≡ done self.old }
    {
        self.durable = self.records.len();
        self.fate = Some(true);
    }

    /// The Open in hand counts.
    pub(crate) fn land_open(&mut self)
        ensures { self.new ≡ reopened self.old }
    {
        self.durable = self.records.len();
        self.opened = true;
    }

    /// What is in hand isn't there.
    pub(crate) fn lose(&mut self)
        ensures { self.new ≡ lost self.old }
    {
        self.records.truncate(self.durable);
    }

    /// The block that was begun is taken back.
    pub(crate) fn take_back(&mut self)
        ensures { self.new ≡ refused (lost self.old) }
    {
        self.records.truncate(self.durable);
        self.fate = Some(false);
    }

    /// After a restart, which found the block in hand or not.
    pub(crate) fn settle(&mut self, kept: bool)
        ensures { self.new ≡ settled kept self.old }
    {
        if kept {
            self.durable = self.records.len();
        } else {
            self.records.truncate(self.durable);
        }
        self.opened = false;
        if self.fate.is_none() {
            self.fate = Some(kept);
        }
    }
}
