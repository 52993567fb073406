//! What a lane looks up among its records.

ghost use Rattle.std.specs.Prelude.{◌≡◌, ◌++◌, ◌∷◌, [], List, OnOk, OnErr, Some, None, true, false};
ghost use Rattle.dap_messages.specs.declared.report.Report as report;
ghost use Rattle.lane_records.specs.declared.record.Record.{Record};
ghost use Rattle.lane_records.specs.declared.record.Record.TheVariants.{Accept};
ghost use Rattle.legal_journals.specs.LaneTests.{accepts};
ghost use Rattle.legal_journals.specs.Places.{place_of};
ghost use Rattle.leader_lane.specs.Catalog.{Lists, key_of};
ghost use Rattle.leader_lane.specs.Judge.{closes_in, is_closed};

use dap_bytes::{Id, Name};
use lane_records::Record;
use legal_journals::LeaderIndex;
use std::alloc::{AllocError, Global};

/// The index over a lane's records and over the Accepts of the block in hand, whose keys it has, so that they can be
/// taken back where the block is lost. It may lack the newest records until it catches up.
#[derive(Drop)]
pub(crate) struct Catalog {
    index: LeaderIndex,
    entered: Vec<(Name, Id)>,
}

impl Catalog {
    /// That of no record. It takes no memory.
    pub(crate) fn new(alloc: Global) -> Self
        ensures { Lists result [] [] }
    {
        Catalog {
            index: LeaderIndex::new(alloc),
            entered: Vec::new(alloc),
        }
    }

    /// Takes in the records behind those that it has. Where memory runs out it has some of them.
    pub(crate) fn catch_up(&mut self, records: &[Record]) -> Result<(), AllocError>
        ensures ok { OnOk result ((seen more : List Record) → Lists self.old seen [] → records.now ≡ seen ++ more
            → Lists self.new records.now []) }
        ensures err { OnErr result ((seen more : List Record) → Lists self.old seen [] → records.now ≡ seen ++ more
            → (some rest : List Record) × (more ≡ some ++ rest) × Lists self.new (seen ++ some) []) }
    {
        let from = self.index.len().min(records.len());
        let rest = &records[from..];
        for x in rest {
            self.index.push(x)?;
        }
        Ok(())
    }

    /// The block in hand has this Accept too, which has this key.
    pub(crate) fn enter(&mut self, key: (Name, Id), x: &Record) -> Result<(), AllocError>
        requires { (r : report.Report) × (x.now ≡ Accept r) × (key ≡ key_of r) }
        ensures ok { OnOk result ((records block : List Record) → Lists self.old records block
            → Lists self.new records (block ++ x.now ∷ [])) }
        ensures err { OnErr result ((records block : List Record) → Lists self.old records block
            → Lists self.new records block) }
    {
        self.entered.try_reserve(1)?;
        self.index.push(x)?;
        self.entered.push_reserved(key);
        Ok(())
    }

    /// The block in hand counts.
    fn land(&mut self)
        ensures { (records block : List Record) → Lists self.old records block → Lists self.new (records ++ block) [] }
    {
        self.entered.clear();
    }

    /// The block in hand is lost.
    fn lose(&mut self)
        ensures { (records block : List Record) → Lists self.old records block → Lists self.new records [] }
    {
        while let Some(key) = self.entered.pop() {
            self.index.take_back_accept(&key.0, &key.1);
        }
    }

    /// By what became of the block in hand; nothing while that is open. It takes no memory.
    pub(crate) fn settle(&mut self, fate: Option<bool>)
        ensures landed { fate ≡ Some true → (records block : List Record) → Lists self.old records block
            → Lists self.new (records ++ block) [] }
        ensures lost { fate ≡ Some false → (records block : List Record) → Lists self.old records block
            → Lists self.new records [] }
        ensures open { fate ≡ None → self.new ≡ self.old }
    {
        match fate {
            Some(true) => self.land(),
            Some(false) => self.lose(),
            None => {}
        }
    }

    /// The place of the report's Accept, among the records with the block in hand behind them. It takes no memory.
    pub(crate) fn accepted(&self, name: &Name, id: &Id) -> Option<usize>
        ensures { (records block : List Record) → Lists self.now records block
            → result ≡ place_of (accepts name.now id.now) (records ++ block) }
    {
        self.index.accepted(name, id)
    }

    /// Whether the bucket of this name and start is closed. It takes no memory.
    pub(crate) fn is_closed(&self, name: &Name, start: u64) -> bool
        ensures { (records block : List Record) → Lists self.now records block
            → result ≡ is_closed (closes_in (records ++ block)) name.now start }
    {
        self.index.closed(name, start).is_some()
    }
}
