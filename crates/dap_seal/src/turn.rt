//! What each aggregator says of a report, in messages.

ghost use Rattle.std.specs.Prelude.{◌≡◌, IfOk};
ghost use Rattle.dap_seal.specs.Steps.{code_told, item_by, outcome_by, prep_by, share_by, step_told};

use crate::half::SealedHalf;
use crate::head::Head;
use dap_bytes::{Bytes, Name};
use dap_messages::{Code, Half, Report, Step, Tagged};
use dap_tasks::Task;
use std::alloc::{AllocError, Global};
use vdaf_api::{Step as Prepared, Vdaf};

/// A step as messages tell it; a number that is no code is told as `VdafPrepError`. It takes no memory.
pub fn told(step: Prepared) -> Step
    ensures { result ≡ step_told step }
{
    match step {
        Prepared::Continued(bytes) => Step::Continued(bytes),
        Prepared::Failed(number) => Step::Failed(code_of(number)),
    }
}

/// The code of a number.
fn code_of(number: u8) -> Code
    ensures { result ≡ code_told number }
{
    Code::of_byte(number).unwrap_or(Code::VdafPrepError)
}

/// The helper's first step on what it gets of a report in a request of a task, by the function of the task's kind.
pub fn prep_step<V: Vdaf>(
    alloc: Global,
    vdaf: &V,
    task: &Task,
    name: &Name,
    half: &Tagged<Half>,
) -> Result<Step, AllocError>
    requires { V.functions vdaf.now ≡ V.of_kind task.now.kind }
    ensures { IfOk result (λ step. step ≡ prep_by V.of_kind task.now name.now half.now) }
{
    let head = Head::of_half(name, half)?;
    let sealed = half.body.helper.as_slice();
    Ok(told(SealedHalf::of_helper(task, &head, sealed).helper_step(alloc, vdaf)?))
}

/// The leader's item for the helper's step on a report, by the function of the task's kind.
#[tactic(auto, using(crate::proofs::Halves::item_seen))]
pub fn leader_item<V: Vdaf>(
    alloc: Global,
    vdaf: &V,
    task: &Task,
    report: &Report,
    step: &Step,
) -> Result<Step, AllocError>
    requires { V.functions vdaf.now ≡ V.of_kind task.now.kind }
    ensures { IfOk result (λ item. item ≡ item_by V.of_kind task.now report.now step.now) }
{
    let head = Head::of_report(report)?;
    SealedHalf::of_leader(task, &head, report.leader.as_slice()).leader_item(alloc, vdaf, step)
}

/// The leader's share of its item on a report: its out share, or the zero share where it has none, by the function of the
/// task's kind.
#[tactic(auto, using(crate::proofs::Halves::share_seen))]
pub fn leader_share<V: Vdaf>(
    alloc: Global,
    vdaf: &V,
    task: &Task,
    report: &Report,
    item: &Step,
) -> Result<Bytes, AllocError>
    requires { V.functions vdaf.now ≡ V.of_kind task.now.kind }
    ensures { IfOk result (λ share. share ≡ share_by V.of_kind task.now report.now item.now) }
{
    let head = Head::of_report(report)?;
    SealedHalf::of_leader(task, &head, report.leader.as_slice()).leader_share(alloc, vdaf, item)
}

/// What the leader's item comes to at the helper, by the function of the task's kind: its out share, or a code, before the
/// helper looks for repeats and closed batches.
pub fn helper_outcome<V: Vdaf>(
    alloc: Global,
    vdaf: &V,
    task: &Task,
    name: &Name,
    half: &Tagged<Half>,
    item: &Step,
) -> Result<Result<Bytes, Code>, AllocError>
    requires { V.functions vdaf.now ≡ V.of_kind task.now.kind }
    ensures { IfOk result (λ outcome. outcome ≡ outcome_by V.of_kind task.now name.now half.now item.now) }
{
    let head = Head::of_half(name, half)?;
    let sealed = half.body.helper.as_slice();
    SealedHalf::of_helper(task, &head, sealed).helper_outcome(alloc, vdaf, item)
}
