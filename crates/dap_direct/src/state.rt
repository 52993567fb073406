//! The state of a run on the direct path.

ghost use Rattle.std.specs.Prelude.{◌≡◌, List, []};
ghost use Rattle.vdaf_api.specs.Functions.{Functions};
ghost use Rattle.vdaf_api.specs.declared.kind.Kind.{Kind as PlainKind};
ghost use Rattle.dap_tasks.specs.Task.{PlainTask};
ghost use Rattle.dap_model.specs.State.{opening};
ghost use Rattle.dap_model.specs.Step.{raised};
ghost use Rattle.dap_direct.specs.Offered.{AreOffered};

use crate::accepted::Accepted;
use crate::batch::Batch;
use crate::offered::Offered;
use crate::sums::Sums;
use std::alloc::Global;

/// The state of a run: the moment, the accepted reports, the sums of their buckets, and the collected batches; and the numbers
/// of the reports that were offered.
#[derive(Debug, Drop)]
pub struct Direct {
    pub moment: Option<u64>,
    pub accepted: Accepted,
    pub sums: Vec<Sums>,
    pub collected: Vec<Batch>,
    pub offered: Offered,
}

impl Direct {
    ghost use Rattle.dap_direct.specs.Direct.{AreSummed, IsAt, state_of};

    /// The state before a script. It takes no memory.
    pub fn new(alloc: Global) -> Direct
        ensures state { (tasks : List PlainTask) → state_of tasks result ≡ opening tasks }
        ensures sums { (f : PlainKind → Functions) (tasks : List PlainTask) → AreSummed f tasks result }
        ensures offered { AreOffered [] result.offered }
        ensures at { IsAt 1 result }
    {
        Direct {
            moment: None,
            accepted: Accepted::new(alloc),
            sums: Vec::new(alloc),
            collected: Vec::new(alloc),
            offered: Offered::none(),
        }
    }

    /// The moment rises to a time, if it is below it or none is known. It takes no memory.
    pub fn raise(&mut self, t: u64)
        ensures moment { self.new.moment ≡ raised self.old.moment t }
        ensures accepted { self.new.accepted ≡ self.old.accepted }
        ensures sums { self.new.sums ≡ self.old.sums }
        ensures collected { self.new.collected ≡ self.old.collected }
        ensures offered { self.new.offered ≡ self.old.offered }
    {
        self.moment = Some(match self.moment {
            Some(moment) => t.max(moment),
            None => t,
        });
    }
}
