//! The helper's first steps, and what the leader's items come to, report by report.

ghost use Rattle.std.specs.Prelude.{◌≡◌, IfOk, IsSome, Some};
ghost use Rattle.std.specs.List.{find};
ghost use Rattle.dap_tasks.specs.Task.{PlainTask, has_name};
ghost use Rattle.dap_views.specs.Request.{parts_left};
ghost use Rattle.helper_lane.specs.Reply.{as_outcome, first_steps};
ghost use Rattle.helper_lane.specs.Work.{prepared_outcomes};

use dap_bytes::{Bytes, Name};
use dap_messages::{Code, Half, Items, Step, Tagged};
use dap_seal::{helper_outcome, prepare_part, told};
use dap_tasks::{Task, Tasks};
use dap_views::RequestView;
use lane_records::Outcome;
use std::alloc::{AllocError, Global};
use vdaf_api::Vdaf;

/// The first steps for the parts of a request that are yet to come.
pub(crate) fn steps_of<V: Vdaf>(
    alloc: Global,
    tasks: &Tasks<V>,
    name: &Name,
    request: RequestView<'_>,
) -> Result<Items<Step>, AllocError>
    requires { IsSome (find (has_name name.now) tasks.now) }
    ensures { (task : PlainTask) → find (has_name name.now) tasks.now ≡ Some task
        → IfOk result (λ steps. steps ≡ first_steps V.of_kind task name.now (parts_left request.entry)) }
{
    let mut steps = Vec::new(alloc);
    for part in request {
        let step = prepare_part(alloc, tasks, name, &part)?;
        steps.push(Tagged {
            id: part.id,
            body: told(step),
        })?;
    }
    Ok(Items::new(steps))
}

/// An out share or a code, as a record has it.
fn as_outcome(outcome: Result<Bytes, Code>) -> Outcome
    ensures { result ≡ as_outcome outcome }
{
    match outcome {
        Ok(share) => Outcome::Finished(share),
        Err(code) => Outcome::Failed(code),
    }
}

/// What the leader's items come to.
pub(crate) fn outcomes_of<V: Vdaf>(
    alloc: Global,
    vdaf: &V,
    task: &Task,
    halves: &[Tagged<Half>],
    steps: &[Tagged<Step>],
) -> Result<Items<Outcome>, AllocError>
    requires { V.functions vdaf.now ≡ V.of_kind task.now.kind }
    ensures { IfOk result (λ outs. outs ≡ prepared_outcomes V.of_kind task.now task.now.name halves.now steps.now) }
{
    let mut outs = Vec::new(alloc);
    for place in 0..halves.len().min(steps.len()) {
        let half = &halves[place];
        let outcome = helper_outcome(alloc, vdaf, task, &task.name, half, &steps[place].body)?;
        outs.push(Tagged {
            id: half.id,
            body: as_outcome(outcome),
        })?;
    }
    Ok(Items::new(outs))
}
