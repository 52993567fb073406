//! The parts of a request, prepared by the helper.

ghost use Rattle.std.specs.Prelude.{◌≡◌, IfOk, IfSome, IsSome};
ghost use Rattle.std.specs.List.{find};
ghost use Rattle.dap_tasks.specs.Task.{has_name};
ghost use Rattle.dap_views.specs.Parts.{item_of};
ghost use Rattle.vdaf_api.specs.Verdict.{helper_step};
ghost use Rattle.dap_seal.specs.Steps.{half_opened};

use crate::half::SealedHalf;
use crate::head::Head;
use dap_bytes::Name;
use dap_tasks::{Task, Tasks};
use dap_views::PartView;
use std::alloc::{AllocError, Global};
use vdaf_api::{Step, Vdaf};

/// The helper's step on what a request says of one report, under a task.
fn step_under<V: Vdaf>(
    alloc: Global,
    task: &Task,
    vdaf: &V,
    name: &Name,
    part: &PartView<'_>,
) -> Result<Step, AllocError>
    ensures { IfOk result (λ step. step
        ≡ helper_step (V.functions vdaf.now) (half_opened task.now name.now (item_of part.now))) }
{
    let head = Head::of_part(alloc, name, part)?;
    SealedHalf::of_helper(task, &head, part.helper).helper_step(alloc, vdaf)
}

/// The helper's step on what a request of this name says of one report: its prep share, or a code. The tasks hold the
/// name.
pub fn prepare_part<V: Vdaf>(
    alloc: Global,
    tasks: &Tasks<V>,
    name: &Name,
    part: &PartView<'_>,
) -> Result<Step, AllocError>
    requires { IsSome (find (has_name name.now) tasks.now) }
    ensures { IfOk result (λ step. IfSome (find (has_name name.now) tasks.now)
        (λ task. step ≡ helper_step (V.of_kind task.kind) (half_opened task name.now (item_of part.now)))) }
{
    match tasks.find(name) {
        Some((task, vdaf)) => step_under(alloc, task, vdaf, name, part),
        None => unreachable!(),
    }
}
