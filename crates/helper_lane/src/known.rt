//! The index of a lane's records, as far as they were entered.

ghost use Rattle.std.specs.Prelude.{[], OnOk};

use lane_records::Record;
use legal_journals::HelperIndex;
use std::alloc::{AllocError, Global};

/// An index, and how many records it is of.
#[derive(Drop)]
pub(crate) struct Known {
    pub index: HelperIndex,
    pub count: usize,
}

impl Known {
    ghost use Rattle.helper_lane.specs.Known.{IsKnown, KnowsAll};

    /// The index of no record. It takes no memory.
    pub(crate) fn new(alloc: Global) -> Known
        ensures { IsKnown result [] }
    {
        Known {
            index: HelperIndex::new(alloc),
            count: 0,
        }
    }

    /// Enters the records that aren't entered yet. Where memory runs out those before are entered.
    pub(crate) fn catch_up(&mut self, records: &[Record]) -> Result<(), AllocError>
        requires { IsKnown self.old records.now }
        ensures ok { OnOk result (KnowsAll self.new records.now) }
        ensures known { IsKnown self.new records.now }
    {
        for place in self.count..records.len() {
            self.index.push(&records[place])?;
            self.count = place + 1;
        }
        Ok(())
    }
}
