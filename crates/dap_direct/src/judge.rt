//! What a report comes to that is offered.

ghost use Rattle.std.specs.Prelude.{◌≡◌, ◌<◌, IsTrue, IfSome};
ghost use Rattle.std.specs.Option.{option_map};
ghost use Rattle.dap_batch.specs.Group.{batch_start};
ghost use Rattle.dap_messages.specs.Messages.{report};
ghost use Rattle.dap_messages.specs.Reports.{known_in};
ghost use Rattle.dap_tasks.specs.Judged.{is_known_as, judged};
ghost use Rattle.dap_model.specs.State.{is_closed};

use crate::batch::Batch;
use crate::state::Direct;
use dap_batch::batch_of;
use dap_messages::Report;
use dap_tasks::{Cause, Judged, Task, is_early, is_expired};

/// Whether a report is known, and has the same bytes.
fn is_again(known: Option<&Report>, new: &Report) -> bool
    requires known { IfSome known (λ r. IsTrue (report.allowed r.now)) }
    requires new { IsTrue (report.allowed new.now) }
    ensures { result ≡ is_known_as (option_map (λ r. report.spell r.now) known.entry) (report.spell new.now) }
{
    match known {
        Some(known) => known.is_same(new),
        None => false,
    }
}

impl Direct {
    /// Whether a report's bucket lies in a collected batch, where its task has this precision.
    fn is_closed(&self, precision: u32, new: &Report) -> bool
        requires { 0 < precision }
        ensures { result ≡ is_closed self.now.collected.items new.now.name precision
            (batch_start new.now.time precision) }
    {
        Batch::any_with(
            &self.collected,
            &new.name,
            precision,
            batch_of(new.time, precision),
        )
    }

    /// What a report comes to that is offered to a task. It takes no memory.
    #[tactic(auto, using(crate::proofs::DirectLemmas::is_some_mapped))]
    pub fn judge(&self, task: &Task, new: &Report) -> Judged
        requires { IsTrue (report.allowed new.now) }
        ensures { result ≡ judged (known_in self.now.accepted new.now.name new.now.id) self.now.moment task.now.expires
            (is_closed self.now.collected.items new.now.name task.now.precision
            (batch_start new.now.time task.now.precision))
            (report.spell new.now) new.now.time }
    {
        let known = self.accepted.find(&new.name, &new.id);
        if is_again(known, new) {
            Judged::Again
        } else if is_early(self.moment, new.time) {
            Judged::Barred(Cause::Early)
        } else if is_expired(self.moment, task.expires) {
            Judged::Barred(Cause::Expired)
        } else if known.is_some() {
            Judged::Barred(Cause::Conflict)
        } else if self.is_closed(task.precision, new) {
            Judged::Barred(Cause::Collected)
        } else {
            Judged::Added
        }
    }
}
