//! Working out what a lane took, beside the lane.

ghost use Rattle.std.specs.Prelude.{◌≡◌, IfErr, IfOk, None, Some};
ghost use Rattle.std.specs.List.{find};
ghost use Rattle.dap_messages.specs.Grammar.{whole};
ghost use Rattle.dap_messages.specs.Messages.{message};
ghost use Rattle.dap_tasks.specs.Task.{has_name};
ghost use Rattle.helper_lane.specs.Input.{IsInput};
ghost use Rattle.helper_lane.specs.Work.{IsMade, Makes, input_of};

use crate::judge::cont_req;
use crate::made::{HelperDone, Made};
use crate::steps::{outcomes_of, steps_of};
use crate::work::HelperWork;
use dap_messages::{Half, ReadFault, Tagged, read_message};
use dap_tasks::{Task, Tasks};
use dap_views::view_request;
use std::alloc::{AllocError, Global};
use vdaf_api::Vdaf;

/// The first steps for an InitReq of the task.
fn init_made<V: Vdaf>(
    alloc: Global,
    tasks: &Tasks<V>,
    task: &Task,
    bytes: &[u8],
) -> Result<Made, AllocError>
    requires held { find (has_name task.now.name) tasks.now ≡ Some task.now }
    requires input { IsInput task.now bytes.now None }
    ensures { IfOk result (λ made. Makes V.of_kind task.now None (whole message bytes.now) made) }
{
    let Ok(request) = view_request(bytes) else {
        unreachable!();
    };
    let steps = steps_of(alloc, tasks, &task.name, request)?;
    Ok(Made::Steps(steps))
}

/// What the items of a ContReq come to, whose job was started with these halves.
fn cont_made<V: Vdaf>(
    alloc: Global,
    tasks: &Tasks<V>,
    task: &Task,
    halves: &[Tagged<Half>],
    bytes: &[u8],
) -> Result<Made, AllocError>
    requires held { find (has_name task.now.name) tasks.now ≡ Some task.now }
    requires input { IsInput task.now bytes.now (Some halves.now) }
    ensures { IfOk result (λ made. Makes V.of_kind task.now (Some halves.now) (whole message bytes.now) made) }
{
    let message = match read_message(alloc, bytes) {
        Ok(message) => message,
        Err(ReadFault::NoMemory) => return Err(AllocError),
        Err(ReadFault::Form { at: _ }) => unreachable!(),
    };
    let Some((_, steps)) = cont_req(&message) else {
        unreachable!();
    };
    let Some((_, vdaf)) = tasks.find(&task.name) else {
        unreachable!();
    };
    let outs = outcomes_of(alloc, vdaf, task, halves, steps.as_slice())?;
    Ok(Made::Outcomes(outs))
}

/// What the work comes to.
fn made<V: Vdaf>(alloc: Global, tasks: &Tasks<V>, work: &HelperWork) -> Result<Made, AllocError>
    requires { find (has_name work.now.task.name) tasks.now ≡ Some work.now.task }
    ensures { IfOk result (λ made. IsMade V.of_kind (input_of work.now) made) }
{
    match work.started() {
        None => init_made(alloc, tasks, work.task(), work.message()),
        Some(halves) => cont_made(alloc, tasks, work.task(), halves.as_slice(), work.message()),
    }
}

/// Works out what a lane took; the tasks hold the work's task. It needs no lane. Where memory runs out the work comes
/// back.
pub fn work_out<V: Vdaf>(
    alloc: Global,
    tasks: &Tasks<V>,
    work: HelperWork,
) -> Result<HelperDone, HelperWork>
    requires { find (has_name work.task.name) tasks.now ≡ Some work.task }
    ensures done { IfOk result (λ done. (done.work ≡ work) × IsMade V.of_kind (input_of work) done.made) }
    ensures err { IfErr result (λ back. back ≡ work) }
{
    match made(alloc, tasks, &work) {
        Ok(made) => Ok(HelperDone { work, made }),
        Err(AllocError) => Err(work),
    }
}
